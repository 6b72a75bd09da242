//! What is printed of bytes and of a region's calls.
use crate::watched::{Kind, Watched};
use cod_region::Region;
use std::io;

/// Prints the bytes that a step has read, where it is done.
pub fn read(rt: &HostRuntime, read: &[u8], done: bool) -> io::Result<()> {
    if done {
        line(rt, read)?;
    }
    Ok(())
}

/// Prints a line of bytes.
pub fn line(rt: &HostRuntime, text: &[u8]) -> io::Result<()> {
    print!(rt; "  ")?;
    for byte in text {
        print!(rt; "{byte:02x}")?;
    }
    println!(rt; "")
}

/// Prints a step's answer, the calls from a number on, and the bytes of the last of them that is a write.
pub fn calls<R: Region>(
    rt: &HostRuntime,
    region: &Watched<R>,
    from: usize,
    done: bool,
) -> io::Result<()> {
    print!(rt; "  {}", if done { "done" } else { "failed" })?;
    let mut wrote = false;
    for number in from..region.count() {
        let note = region.note(number);
        match note.kind {
            Kind::Read => print!(rt; ", reads {} from {}", note.len, note.at)?,
            Kind::Write => {
                wrote = true;
                print!(rt; ", writes {} from {}", note.len, note.at)?
            }
            Kind::Cut => print!(rt; ", cuts to {}", note.at)?,
        }
    }
    println!(rt; ", faults {}", region.faults())?;
    if wrote {
        line(rt, region.written())?;
    }
    Ok(())
}
