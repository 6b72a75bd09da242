//! Steps on a parity column.
ghost use Rattle.std.specs.Prelude.{◌≡◌, None};

use crate::records::geometry;
use crate::watched::Watched;
use crate::words::Words;
use crate::{MOST, print};
use cod_parity::{ParityColumn, record_len};
use cod_predict::Policy;
use cod_record::Head;
use cod_region::{FaultyRegion, FaultyShelf, Region, Shelf, Untold};
use cod_types::{Cuts, NodeId};
use std::alloc::Global;
use std::io;

/// A region that doesn't tell what it holds. So whatever a column is said to mean there holds of it.
type Ground = Untold<Watched<FaultyRegion>>;

/// A parity column on a region that notes its calls, and how many updates of each block are committed.
#[derive(Drop)]
pub struct Parity {
    column: ParityColumn<Ground>,
    cuts: Cuts,
}

impl Parity {
    /// `column FAIL VERSION N K BLOCK UPDATE RESERVE UNIT ALPHA`: a column whose region's call of this number fails. The
    /// block and the reserved space together have at most 160 bytes.
    pub fn build(alloc: Global, words: &Words<'_>) -> Option<Parity> {
        let g = geometry(words, 2)?;
        let _columns = g.k(); // the limits of a geometry are told here
        let shelf = FaultyShelf::new(alloc, &[(NodeId(0), words.number(1))]).ok()?;
        let region = shelf
            .region(alloc, NodeId(0), g.block() + g.reserve())
            .ok()?;
        if MOST < (g.block() + g.reserve()) as usize {
            return None;
        }
        Some(Parity {
            column: ParityColumn::new(g, Untold::new(Watched::new(region))),
            cuts: Cuts::new(),
        })
    }

    /// `put BYTES`, `append BLOCK NUMBER VERSION COEFFICIENT OFF BYTES`, `commit BLOCK`, `value OFF LEN`, `base OFF LEN`, which
    /// reads the block as it is held and copies nothing, `out`, `merge` or `tick`.
    pub fn take_step(&mut self, rt: &HostRuntime, words: &Words<'_>) -> io::Result<()> {
        let from = self.column.region().held().count();
        let mut bytes = [0u8; MOST];
        let done = match words.name() {
            "put" => {
                let len = words.bytes(1, &mut bytes);
                self.put(&bytes[..len])
            }
            "append" => {
                let len = words.bytes(6, &mut bytes);
                self.append(words, &bytes[..len])
            }
            "commit" => return self.commit(words.byte(1)),
            "value" => {
                let len = (words.size(2) as usize).min(MOST);
                let done = self.value(words.size(1), &mut bytes[..len]);
                print::read(rt, &bytes[..len], done)?;
                done
            }
            "base" => self.base(rt, words.size(1), words.size(2))?,
            "out" => {
                let len = (self.column.geometry().block() + self.column.used()) as usize;
                let len = len.min(MOST);
                let done = self.out(&mut bytes[..len]);
                print::read(rt, &bytes[..len], done)?;
                done
            }
            "merge" => self.merge(),
            "tick" => self.tick(),
            _ => return Ok(()),
        };
        print::calls(rt, self.column.region().held(), from, done)?;
        self.print_numbers(rt)
    }

    fn print_numbers(&self, rt: &HostRuntime) -> io::Result<()> {
        println!(rt;
            "  used {}, size {} of {}, average {}, appended {}",
            self.column.used(),
            self.column.size(),
            self.column.region().len(),
            self.column.average(),
            self.column.appended()
        )
    }

    fn put(&mut self, bytes: &[u8]) -> bool {
        bytes.len() == self.column.geometry().block() as usize && self.column.put(bytes).is_ok()
    }

    fn append(&mut self, words: &Words<'_>, delta: &[u8]) -> bool {
        let g = self.column.geometry();
        let version = words.byte(3);
        if MOST < delta.len() {
            return false;
        }
        let head = Head {
            block: words.byte(1) as u16,
            number: words.number(2),
            off: words.size(5),
            len: delta.len() as u32,
        };
        let known = head.block < g.k() as u16 && (version == 1 || version == 2 && g.version() == 2);
        let inside = head.off + head.len <= g.block() && head.len <= g.update();
        let coef = words.byte(4);
        let mut scratch = [0u8; MOST];
        if !known || !inside || MOST < (g.block() + g.reserve()) as usize {
            return false;
        }
        if self.column.size() < record_len(version, coef, delta) {
            return false;
        }
        is_untold(&self.column);
        self.column
            .append(head, version, coef, delta, &self.cuts, &mut scratch)
            .is_ok()
    }

    fn commit(&mut self, block: u8) -> io::Result<()> {
        if block < 16 && self.cuts.get(block) < 1000 {
            self.cuts.raise(block);
        }
        Ok(())
    }

    fn value(&mut self, off: u32, into: &mut [u8]) -> bool {
        let g = self.column.geometry();
        let mut scratch = [0u8; MOST];
        off as usize + into.len() <= g.block() as usize
            && (g.block() + g.reserve()) as usize <= MOST
            && self
                .column
                .read_from(off, into, &self.cuts, &mut scratch)
                .is_ok()
    }

    fn base(&mut self, rt: &HostRuntime, off: u32, len: u32) -> io::Result<bool> {
        let len = len as usize;
        let inside = off as usize + len <= self.column.geometry().block() as usize;
        if !inside || self.column.fetch(off, len).is_err() {
            return Ok(false);
        }
        print::line(rt, self.column.lent(off, len))?;
        Ok(true)
    }

    fn out(&mut self, into: &mut [u8]) -> bool {
        let g = self.column.geometry();
        into.len() == (g.block() + self.column.used()) as usize
            && self.column.copy_out(into).is_ok()
    }

    fn merge(&mut self) -> bool {
        let g = self.column.geometry();
        let mut scratch = [0u8; MOST];
        (g.block() + g.reserve()) as usize <= MOST
            && self.column.merge(&self.cuts, &mut scratch).is_ok()
    }

    fn tick(&mut self) -> bool {
        let g = self.column.geometry();
        let mut scratch = [0u8; MOST];
        if MOST < (g.block() + g.reserve()) as usize {
            return false;
        }
        is_untold(&self.column);
        self.column
            .tick(&Policy::of(&g), &self.cuts, &mut scratch)
            .is_ok()
    }
}

/// Nothing is told of what the column's region holds.
fn is_untold(column: &ParityColumn<Ground>)
    ensures { column.now.device.content ≡ None }
{
    let _region = column.region();
}
