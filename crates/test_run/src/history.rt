//! Whether printed lines can be those of plain bytes, where no more columns are down than a segment can miss.
use std::alloc::Global;
use std::test::Fail;

/// A segment of plain bytes.
#[derive(Drop)]
struct Plain {
    /// The bytes, as hexadecimal digits.
    digits: Vec<u8>,
    /// The stamp of its last line.
    stamp: u64,
}

impl Plain {
    /// Whether a line fits what stands before it. The words behind its segment are `entry`.
    fn goes_on(&mut self, stamp: u64, entry: &str) -> Result<bool, Fail> {
        let rises = self.stamp < stamp;
        self.stamp = stamp;
        let fits = match entry.split_once(" -> ") {
            Some((call, reply)) => self.answers(call, reply)?,
            None => entry.starts_with("= "),
        };
        Ok(rises && fits)
    }

    /// Whether a reply is that of these bytes, which become what the call makes of them.
    fn answers(&mut self, call: &str, reply: &str) -> Result<bool, Fail> {
        let mut words = call.split(' ').skip(2);
        let kind = words.next().unwrap_or("");
        let first = words.next().unwrap_or("");
        let second = words.next().unwrap_or("");
        let third = words.next().unwrap_or("");
        if kind == "read" || kind == "write" || kind == "swap" {
            let from = first.parse::<usize>()?.saturating_mul(2);
            return self.answers_at(kind, from, second, third, reply);
        }
        if kind == "put" {
            self.replace(0, first);
        }
        Ok(if kind == "rebuild" {
            reply == "whole" || reply.starts_with("rebuilt ") || reply.starts_with("nospare")
        } else if kind == "drain" {
            reply == "clear" || reply.starts_with("shifted ") || reply.starts_with("nospare")
        } else {
            reply == "done"
        })
    }

    /// The same for a call at a place, that of this digit.
    fn answers_at(
        &mut self,
        kind: &str,
        from: usize,
        first: &str,
        second: &str,
        reply: &str,
    ) -> Result<bool, Fail> {
        if kind == "read" {
            let count = first.parse::<usize>()?.saturating_mul(2);
            return Ok(self.is_told(from, count, reply, "bytes "));
        }
        if kind == "swap" && !self.has(from, first) {
            return Ok(self.is_told(from, first.len(), reply, "differs "));
        }
        self.replace(from, if kind == "swap" { second } else { first });
        Ok(reply == "done")
    }

    /// Whether a reply tells as many digits from this one on.
    fn is_told(&self, from: usize, count: usize, reply: &str, word: &str) -> bool {
        match reply.strip_prefix(word) {
            Some(told) => told.len() == count && self.has(from, told),
            None => false,
        }
    }

    /// Whether these are the digits from this one on.
    fn has(&self, from: usize, digits: &str) -> bool {
        let here = self.digits.get(from..from.saturating_add(digits.len()));
        here == Some(digits.as_bytes())
    }

    /// The digits from this one on become these.
    fn replace(&mut self, from: usize, digits: &str) {
        for (place, digit) in self.digits.iter_mut().skip(from).zip(digits.as_bytes()) {
            *place = *digit;
        }
    }
}

/// Whether the lines stand by stamp, those of each segment with stamps that rise, and each reply is that of so many plain bytes.
/// Segments are named `s0` and so on.
pub(crate) fn is_legal(
    alloc: Global,
    chronicle: &str,
    segments: u32,
    bytes: usize,
) -> Result<bool, Fail> {
    let mut all = Vec::new(alloc);
    for _ in 0..segments {
        let digits = vec![in alloc; b'0'; bytes.saturating_mul(2)]?;
        all.push(Plain { digits, stamp: 0 })?;
    }
    let mut last = 0u64;
    for line in chronicle.lines() {
        let (stamp, rest) = line.split_once(' ').unwrap_or(("", ""));
        let (name, entry) = rest.split_once(' ').unwrap_or(("", ""));
        let stamp = stamp.parse::<u64>()?;
        let number = name.strip_prefix("s").unwrap_or("").parse::<usize>()?;
        let fits = match all.get_mut(number) {
            Some(plain) => plain.goes_on(stamp, entry)?,
            None => false,
        };
        if !fits || stamp < last {
            return Ok(false);
        }
        last = stamp;
    }
    Ok(true)
}

/// Whether a line is a caller's call of this number, as its line in the scenario asks for it.
fn is_call(line: &str, number: u32, asked: &str) -> Result<bool, Fail> {
    let mut told = line.split(' ').skip(1);
    let mut asked = asked.split(' ');
    let segment = told.next().unwrap_or("");
    let told_number = told.nth(1).unwrap_or("").parse::<u32>()?;
    let kind = told.next().unwrap_or("");
    let is_kind = kind == asked.next().unwrap_or("");
    let is_segment = segment == asked.next().unwrap_or("");
    for word in asked {
        if told.next().unwrap_or("") != word {
            return Ok(false);
        }
    }
    Ok(is_kind && is_segment && told_number == number && told.next().unwrap_or("") == "->")
}

/// Whether a caller's lines are its calls, those of `calls`, each once and in order, with numbers from 0 on.
pub(crate) fn has_all(chronicle: &str, caller: &str, calls: &str) -> Result<bool, Fail> {
    let mut owed = calls.lines();
    let mut number = 0u32;
    for line in chronicle.lines() {
        if line.split(' ').nth(2).unwrap_or("") == caller {
            match owed.next() {
                Some(asked) => {
                    if !is_call(line, number, asked)? {
                        return Ok(false);
                    }
                }
                None => return Ok(false),
            }
            number = number.saturating_add(1);
        }
    }
    Ok(owed.next().is_none())
}
