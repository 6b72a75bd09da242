//! Steps on records, averages and sizes.
ghost use Rattle.std.specs.Prelude.{◌≤◌};

use crate::words::Words;
use crate::{MOST, print};
use cod_predict::{Policy, target};
use cod_record::{Head, read_any, record_spans, sparse_len, write_head, write_sparse};
use cod_types::Geometry;
use std::io;

/// `record VERSION BLOCK NUMBER OFF BYTES`: the text of the record.
pub fn write(rt: &HostRuntime, words: &Words<'_>) -> io::Result<()> {
    let mut bytes = [0u8; MOST];
    let len = words.bytes(5, &mut bytes);
    let head = Head {
        block: words.byte(2) as u16,
        number: words.number(3),
        off: words.size(4),
        len: len as u32,
    };
    let mut text = [0u8; MOST + 21];
    let size = if words.byte(1) == 2 {
        let size = write_sparse(head.block, head.number, head.off, &bytes[..len], &mut text);
        println!(rt; "  {size} bytes, {} told", sparse_len(&bytes[..len]))?;
        size as usize
    } else {
        write_head(head, &mut text);
        text[19..19 + len].copy_from_slice(&bytes[..len]);
        println!(rt; "  {} bytes", 19 + len)?;
        19 + len
    };
    if size <= text.len() {
        print::line(rt, &text[..size])?;
    }
    Ok(())
}

/// `read TEXT`: the record that begins the text, and its ranges.
pub fn read(rt: &HostRuntime, words: &Words<'_>) -> io::Result<()> {
    let mut bytes = [0u8; MOST];
    let len = words.bytes(1, &mut bytes);
    let text = &bytes[..len];
    match read_any(text) {
        Ok((found, size)) => {
            println!(rt;
                "  {size} bytes, version {}, block {}, number {}, {} ranges",
                found.version, found.block, found.number, found.ranges
            )?;
            for span in record_spans(text) {
                println!(rt;
                    "  {} bytes at {}, from {} of the text",
                    span.len, span.off, span.at
                )?;
            }
            Ok(())
        }
        Err(_) => println!(rt; "  no record"),
    }
}

/// `average ALPHA USED SIZE AVERAGE`: the next average by the weighted rule, and by the newest use alone.
pub fn average(rt: &HostRuntime, words: &Words<'_>) -> io::Result<()> {
    let alpha = words.size(1).min(10_000);
    let size = words.size(3).max(1);
    let used = words.size(2).min(size);
    let avg = words.size(4).min(10_000);
    let weighted = Policy::weighted(alpha).next(used, size, avg);
    println!(rt;
        "  {weighted}, newest {}",
        Policy::newest().next(used, size, avg)
    )
}

/// `target SIZE AVERAGE VERSION N K BLOCK UPDATE RESERVE UNIT ALPHA`: the size after a tick.
pub fn shrink(rt: &HostRuntime, words: &Words<'_>) -> io::Result<()> {
    match geometry(words, 3) {
        Some(g) => {
            let _columns = g.k(); // the limits of a geometry are told here
            let size = words.size(1).max(g.floor());
            println!(rt; "  {}", target(&g, size, words.size(2).min(10_000)))
        }
        None => println!(rt; "  no geometry"),
    }
}

/// The geometry that the words from a place on tell: version, n, k, block, update, reserve, unit, alpha.
pub fn geometry(words: &Words<'_>, at: usize) -> Option<Geometry>
    requires { at ≤ 3 }
{
    let n = words.byte(at + 1);
    let k = words.byte(at + 2);
    let block = words.size(at + 3);
    let update = words.size(at + 4);
    let reserve = words.size(at + 5);
    let unit = words.size(at + 6);
    let alpha = words.size(at + 7);
    if words.byte(at) == 2 {
        Geometry::new2(n, k, block, update, reserve, unit, alpha).ok()
    } else {
        Geometry::new(n, k, block, update, reserve, unit, alpha).ok()
    }
}
