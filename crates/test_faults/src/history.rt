//! A second reading of the rules of a history, over the printed lines alone.
use std::alloc::Global;
use std::mem;
use std::test::Fail;

/// Where a history of one segment stands.
#[derive(Drop)]
pub(crate) struct Past {
    /// The segment's bytes, as hexadecimal digits.
    digits: Vec<u8>,
    /// How many columns may be down.
    parity: u32,
    down: u32,
    /// Whether the last line says that a column came up, or moved.
    is_placed: bool,
    lines: u64,
}

impl Past {
    /// A segment of so many zeros.
    pub(crate) fn new(alloc: Global, bytes: usize, parity: u32) -> Result<Past, Fail> {
        Ok(Past {
            digits: vec![in alloc; b'0'; bytes.saturating_mul(2)]?,
            parity,
            down: 0,
            is_placed: false,
            lines: 0,
        })
    }

    /// Whether a line fits what stands before it.
    pub(crate) fn goes_on(&mut self, line: &str) -> Result<bool, Fail> {
        self.lines = self.lines.saturating_add(1);
        let mut words = line.split(' ');
        if words.next().unwrap_or("").parse::<u64>()? != self.lines {
            return Ok(false);
        }
        match line.split_once(" -> ") {
            Some((call, reply)) => self.is_answer(call, reply),
            None => Ok(self.is_mark(words.nth(2).unwrap_or(""))),
        }
    }

    /// Whether a mark may stand here.
    fn is_mark(&mut self, kind: &str) -> bool {
        if self.is_placed {
            return false;
        }
        self.is_placed = kind != "down";
        if kind == "down" {
            self.down = self.down.saturating_add(1);
        } else if kind == "up" {
            self.down = self.down.saturating_sub(1);
        }
        kind == "down" || self.down <= self.parity
    }

    /// Whether a call's reply fits.
    fn is_answer(&mut self, call: &str, reply: &str) -> Result<bool, Fail> {
        let is_placed = mem::replace(&mut self.is_placed, false);
        let mut words = call.split(' ').skip(4);
        let kind = words.next().unwrap_or("");
        if is_placed {
            return Ok(
                kind == "rebuild" && reply.starts_with("rebuilt ")
                    || kind == "drain" && reply.starts_with("shifted "),
            );
        }
        if self.parity < self.down {
            return Ok(reply == "lost");
        }
        let first = words.next().unwrap_or("");
        let second = words.next().unwrap_or("");
        let third = words.next().unwrap_or("");
        if kind == "put" {
            self.replace(0, first);
        }
        if kind == "read" || kind == "write" || kind == "swap" {
            let off = first.parse::<usize>()?;
            return self.is_answer_of_range(kind, off, second, third, reply);
        }
        Ok(if kind == "rebuild" {
            reply == "whole" && self.down == 0 || reply.starts_with("nospare")
        } else if kind == "drain" {
            reply == "clear" || reply.starts_with("nospare")
        } else {
            reply == "done"
        })
    }

    /// The same for calls of a range.
    fn is_answer_of_range(
        &mut self,
        kind: &str,
        off: usize,
        first: &str,
        second: &str,
        reply: &str,
    ) -> Result<bool, Fail> {
        if kind == "write" {
            self.replace(off, first);
            return Ok(reply == "done");
        }
        if kind == "read" {
            let digits = first.parse::<usize>()?.saturating_mul(2);
            return Ok(self.is_told(off, digits, reply, "bytes "));
        }
        if self.has(off, first) {
            self.replace(off, second);
            return Ok(reply == "done");
        }
        Ok(self.is_told(off, first.len(), reply, "differs "))
    }

    /// Whether a reply tells as many digits from this byte on.
    fn is_told(&self, off: usize, digits: usize, reply: &str, word: &str) -> bool {
        match reply.strip_prefix(word) {
            Some(told) => told.len() == digits && self.has(off, told),
            None => false,
        }
    }

    /// Whether these are the digits from this byte on.
    fn has(&self, off: usize, digits: &str) -> bool {
        let from = off.saturating_mul(2);
        let here = self.digits.get(from..from.saturating_add(digits.len()));
        here == Some(digits.as_bytes())
    }

    /// The digits from this byte on become these.
    fn replace(&mut self, off: usize, digits: &str) {
        let here = self.digits.iter_mut().skip(off.saturating_mul(2));
        for (place, digit) in here.zip(digits.as_bytes()) {
            *place = *digit;
        }
    }
}
