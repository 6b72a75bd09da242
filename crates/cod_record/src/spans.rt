//! The ranges of a record that begins a text, one after another.
ghost use Rattle.std.specs.Prelude.{◌≡◌, ◌+◌, ◌≤◌, ◌<◌, ℕ, List, take};
ghost use Rattle.std.specs.Iterator.{item_count, YieldsFirst};
ghost use Rattle.cod_record.specs.Reading.{BeginsRecord};
ghost use Rattle.cod_record.specs.Record.{IsRecord, Record};
ghost use Rattle.cod_record.specs.Spans.{HaveBytes, spans_of};

use crate::Span;
use byteorder::{BigEndian, ByteOrder};
use std::marker::Model;

/// The ranges that are left of a record, seen as the list of them.
#[derive(Debug, Drop)]
pub struct Spans<'a> {
    from: &'a [u8],
    at: usize,
    left: u16,
}

impl<'a> Model for Spans<'a> {
    ghost use Rattle.std.specs.Prelude.{List};
    ghost use Rattle.cod_record.specs.declared.parts.Span.{Span};
    ghost use Rattle.cod_record.specs.Spans.{AreInside, spans_read};

    ghost Value = { List Span };

    ghost view = { λ s. spans_read s.left s.at s.from.now };

    ghost invariant = { λ s. AreInside s.left s.at s.from.now };
}

/// The ranges of the record that begins the text, in order, and where their bytes stand in the text.
pub fn record_spans(from: &[u8]) -> Spans<'_>
    requires { BeginsRecord from.now }
    ensures spans { (version : ℕ) (r : Record) (n : ℕ) → IsRecord version r (take n from.now) → result ≡ spans_of version r }
    ensures bytes { (version : ℕ) (r : Record) (n : ℕ) → IsRecord version r (take n from.now) → HaveBytes from.now result r.ranges }
{
    if from[0] != 2 {
        return Spans {
            from,
            at: 11,
            left: 1,
        };
    }
    let left = BigEndian::read_u16(&from[11..]);
    Spans { from, at: 13, left }
}

impl<'a> Iterator for Spans<'a> {
    type Item = Span;

    ghost next_gives = { YieldsFirst (λ spans. spans) };

    ghost remaining = { item_count (λ spans. spans) };

    fn next(&mut self) -> Option<Span> {
        if self.left == 0 {
            return None;
        }
        let from = self.from;
        let off = BigEndian::read_u32(&from[self.at..]);
        let len = BigEndian::read_u32(&from[self.at + 4..]);
        let at = self.at + 8;
        self.at = at + len as usize;
        self.left -= 1;
        Some(Span {
            off,
            len,
            at: at as u32,
        })
    }
}
