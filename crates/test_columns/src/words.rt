//! The words of a line.
ghost use Rattle.std.specs.Prelude.{◌≤◌, ◌^◌};

use crate::MOST;

/// The most words of a line.
const COUNT: usize = 24;

/// The words of a line; those that it doesn't have are empty.
#[derive(Drop)]
pub struct Words<'a> {
    words: [&'a str; COUNT],
}

impl<'a> Words<'a> {
    /// The first words of the line.
    pub fn of(line: &'a str) -> Words<'a> {
        let mut words = [""; COUNT];
        for (i, word) in line.split(' ').enumerate() {
            if i < COUNT {
                words[i] = word;
            }
        }
        Words { words }
    }

    /// The first word.
    pub fn name(&self) -> &'a str {
        self.words[0]
    }

    /// The word at a place.
    pub fn word(&self, place: usize) -> &'a str {
        if place < COUNT { self.words[place] } else { "" }
    }

    /// The number at a place, or 0.
    pub fn number(&self, place: usize) -> u64 {
        self.word(place).parse::<u64>().unwrap_or(0)
    }

    /// The number at a place, or 255 where it is more.
    pub fn byte(&self, place: usize) -> u8 {
        self.number(place).min(255) as u8
    }

    /// The number at a place, or 2^20 where it is more.
    pub fn size(&self, place: usize) -> u32
        ensures { result ≤ 2 ^ 20 }
    {
        self.number(place).min(1 << 20) as u32
    }

    /// Brings the bytes at a place, two hexadecimal digits each, to the front of `into`, and answers how many they are.
    pub fn bytes(&self, place: usize, into: &mut [u8; MOST]) -> usize
        ensures { result ≤ 160 }
    {
        let digits = self.word(place).as_bytes();
        let len = (digits.len() / 2).min(MOST);
        match hex::decode_to_slice(digits, &mut into[..len]) {
            Ok(()) => len,
            Err(_) => 0,
        }
    }
}
