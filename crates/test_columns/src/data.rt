//! Steps on a data column.
use crate::watched::Watched;
use crate::words::Words;
use crate::{MOST, print};
use cod_data::DataColumn;
use cod_region::{FaultyRegion, FaultyShelf, Region, Shelf};
use cod_types::NodeId;
use std::alloc::Global;
use std::io;

/// A data column on a region that notes its calls.
#[derive(Drop)]
pub struct Data {
    column: DataColumn<Watched<FaultyRegion>>,
}

impl Data {
    /// `data LEN FAIL`: a column of so many bytes, whose call of this number fails.
    pub fn build(alloc: Global, words: &Words<'_>) -> Option<Data> {
        let shelf = FaultyShelf::new(alloc, &[(NodeId(0), words.number(2))]).ok()?;
        let region = shelf
            .region(alloc, NodeId(0), words.size(1).min(MOST as u32))
            .ok()?;
        Some(Data {
            column: DataColumn::new(Watched::new(region)),
        })
    }

    /// `fill BYTES` replaces all bytes, `apply OFF BYTES` those from a place on, `at OFF LEN` reads, and `at OFF LEN PLACE BYTES`
    /// takes a kept delta off; `copy OFF LEN` reads the bytes as they are held, and `fetch OFF LEN` does so without a copy.
    pub fn take_step(&mut self, rt: &HostRuntime, words: &Words<'_>) -> io::Result<()> {
        let from = self.column.region().count();
        let mut bytes = [0u8; MOST];
        let done = match words.name() {
            "fill" => {
                let len = words.bytes(1, &mut bytes);
                self.fill(&bytes[..len])
            }
            "apply" => {
                let len = words.bytes(2, &mut bytes);
                self.apply(words.size(1), &bytes[..len])
            }
            "at" => return self.read(rt, words),
            "copy" => {
                let len = (words.size(2) as usize).min(MOST);
                let done = self.copy(words.size(1), &mut bytes[..len]);
                print::read(rt, &bytes[..len], done)?;
                done
            }
            "fetch" => self.fetch(rt, words.size(1), words.size(2))?,
            _ => return Ok(()),
        };
        print::calls(rt, self.column.region(), from, done)
    }

    fn fill(&mut self, bytes: &[u8]) -> bool {
        bytes.len() == self.column.region().len() as usize && self.column.put(bytes).is_ok()
    }

    fn apply(&mut self, off: u32, bytes: &[u8]) -> bool {
        off as usize + bytes.len() <= self.column.region().len() as usize
            && self.column.apply(off, bytes).is_ok()
    }

    fn copy(&mut self, off: u32, into: &mut [u8]) -> bool {
        off as usize + into.len() <= self.column.region().len() as usize
            && self.column.copy_out(off, into).is_ok()
    }

    fn fetch(&mut self, rt: &HostRuntime, off: u32, len: u32) -> io::Result<bool> {
        let len = len as usize;
        let inside = off as usize + len <= self.column.region().len() as usize;
        if !inside || self.column.fetch(off, len).is_err() {
            return Ok(false);
        }
        print::line(rt, self.column.lent(off, len))?;
        Ok(true)
    }

    fn read(&mut self, rt: &HostRuntime, words: &Words<'_>) -> io::Result<()> {
        let from = self.column.region().count();
        let mut delta = [0u8; MOST];
        let kept = words.bytes(4, &mut delta);
        let kept = if kept == 0 {
            None
        } else {
            Some((words.size(3), &delta[..kept]))
        };
        let mut bytes = [0u8; MOST];
        let len = (words.size(2) as usize).min(MOST);
        let off = words.size(1);
        let inside = off as usize + len <= self.column.region().len() as usize;
        let done = inside
            && self
                .column
                .read_at_cut(kept, off, &mut bytes[..len])
                .is_ok();
        print::read(rt, &bytes[..len], done)?;
        print::calls(rt, self.column.region(), from, done)
    }
}
