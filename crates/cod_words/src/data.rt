//! Bytes as a word.
ghost use Rattle.std.specs.Prelude.{◌≡◌};
ghost use Rattle.cod_words.specs.declared.data.DataError.TheVariants.{OutOfMemory};
ghost use Rattle.cod_words.specs.Words.{data_of, repeated_data, plain_data, number_of, GivesData};
ghost use Rattle.hex.specs.Hex.{decode_of};

use crate::word::word_number;
use cod_types::Bytes;
use std::alloc::Global;
use thiserror::Error;

/// Why a word gives no bytes.
#[derive(Debug, Drop, Error)]
#[error("no bytes were read from a word")]
pub enum DataError {
    /// The word isn't written as bytes are.
    Data,
    /// A byte is repeated more than 16777216 times.
    Field,
    /// Memory could not be had.
    OutOfMemory,
}

impl From<cod_types::OutOfMemory> for DataError {
    ghost from_gives = { λ _ e. e ≡ OutOfMemory };

    fn from(_e: cod_types::OutOfMemory) -> DataError {
        DataError::OutOfMemory
    }
}

/// One byte, so many times.
fn repeated(alloc: Global, byte: &[u8], count: &[u8]) -> Result<Bytes, DataError>
    ensures { GivesData result (repeated_data (decode_of byte.now) (number_of count.now)) }
{
    let byte = match hex::decode(alloc, byte) {
        Ok(byte) => byte,
        Err(hex::FromHexError::OutOfMemory) => return Err(DataError::OutOfMemory),
        Err(_) => return Err(DataError::Data),
    };
    match (byte.as_slice(), word_number(count)) {
        ([byte], Some(count)) => {
            if 16_777_216 < count {
                return Err(DataError::Field);
            }
            Ok(Bytes::fill(alloc, *byte, count)?)
        }
        _ => Err(DataError::Data),
    }
}

/// Two digits for each byte.
fn plain(alloc: Global, w: &[u8]) -> Result<Bytes, DataError>
    ensures { GivesData result (plain_data (decode_of w.now)) }
{
    match hex::decode(alloc, w) {
        Ok(bytes) => {
            if bytes.is_empty() {
                return Err(DataError::Data);
            }
            Ok(Bytes::from_vec(bytes))
        }
        Err(hex::FromHexError::OutOfMemory) => Err(DataError::OutOfMemory),
        Err(_) => Err(DataError::Data),
    }
}

/// The bytes of a word: `-` for none; two hexadecimal digits, `*` and a number of at most 16777216 for one byte so many
/// times, which may be 0; else two hexadecimal digits for each of at least one byte. Both cases of digits are read.
///
/// `Data` comes exactly where the word is none of these, and `Field` exactly where it is a repeat whose count is a number
/// above 16777216. The bytes take no more memory than they are.
pub fn word_data(alloc: Global, w: &[u8]) -> Result<Bytes, DataError>
    ensures { GivesData result (data_of w.now) }
{
    match w {
        [b'-'] => Ok(Bytes::from_vec(Vec::new(alloc))),
        [_, _, b'*', count @ ..] => repeated(alloc, &w[..2], count),
        _ => plain(alloc, w),
    }
}
