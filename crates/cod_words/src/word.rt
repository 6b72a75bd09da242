//! Words, numbers and names.
ghost use Rattle.std.specs.Prelude.{◌≡◌, ◌<◌, IfOk, MatchOption, IfSome, List, [], ◌∷◌, length, map};
ghost use Rattle.std.specs.Str.Lines.{strip_carriage_return};
ghost use Rattle.cod_words.specs.Words;
ghost use Rattle.cod_words.specs.Words.{words_of, lines_of, number_of, is_name};

use memchr::memchr;
use std::alloc::{AllocError, Global};

/// The line without the byte 0D at its end, where it has one; of several it loses one.
pub fn trimmed(line: &[u8]) -> &[u8]
    ensures { result.now ≡ strip_carriage_return line.now }
{
    match line {
        [front @ .., b'\r'] => front,
        _ => line,
    }
}

/// The words of a line: what stands between its spaces (20), however many.
pub fn words(alloc: Global, line: &[u8]) -> Result<Vec<&[u8]>, AllocError>
    ensures { IfOk result (λ v. map (λ w. w.now) v.items ≡ words_of line.now) }
{
    line.split(|b| *b == b' ')
        .filter(
            |w| -> bool
                ensures { result ≡ Words.is_not_empty w.now.now }
            { 0 < w.len() },
        )
        .collect(alloc)
}

/// The number that a word of 1 to 10 decimal digits writes, where it is at most 4294967295. `None` exactly where the word
/// is no such number. Leading zeros are read.
pub fn word_number(w: &[u8]) -> Option<u32>
    ensures { result ≡ number_of w.now }
{
    if w.is_empty() || 10 < w.len() {
        return None;
    }
    let mut value = 0u64;
    for b in w {
        if !b.is_ascii_digit() {
            return None;
        }
        value = value * 10 + u64::from(*b - b'0');
    }
    u32::try_from(value).ok()
}

fn is_name_byte(b: u8) -> bool
    ensures { result ≡ Words.is_name_byte b }
{
    b.is_ascii_lowercase() || b.is_ascii_digit() || b == b'_'
}

/// Whether the word is a name: 1 to 16 bytes of a to z, 0 to 9 and `_`, beginning with a letter.
pub fn word_name(w: &[u8]) -> bool
    ensures { result ≡ is_name w.now }
{
    if w.is_empty() || 16 < w.len() || !w[0].is_ascii_lowercase() {
        return false;
    }
    w.iter().all(|b| is_name_byte(*b))
}

/// The first line of a text, without its byte 0A, and what stands behind that byte. A text without bytes has no line, and
/// so nothing behind the last byte 0A is one.
pub fn next_line(text: &[u8]) -> Option<(&[u8], &[u8])>
    ensures lines { MatchOption result (lines_of text.now ≡ []) (λ p. lines_of text.now ≡ p.0.now ∷ lines_of p.1.now) }
    ensures shorter { IfSome result (λ p. length p.1.now < length text.now) }
{
    if text.is_empty() {
        return None;
    }
    match memchr(b'\n', text) {
        Some(end) => Some((&text[..end], &text[end + 1..])),
        None => Some((text, &[])),
    }
}
