//! Decoding rows of a code, of which the latest used are kept.
#![tactic(auto)]

ghost use Rattle.std.specs.Prelude.{◌≡◌, ◌^◌, ◌<◌, ℕ, List, slice_index, count_ones, IfOk, false};
ghost use Rattle.cod_code.specs.Codewords.{IsCodeword};
ghost use Rattle.cod_code.specs.Columns.{combination, decode_row_at, has_column};
ghost use Rattle.cod_code.specs.declared.Code.{Code};
ghost use Rattle.cod_rows.specs.Cached.{AreRows};

use cod_code::Code;
use cod_types::OutOfMemory;
use lru::LruCache;
use std::alloc::Global;
use std::marker::Model;
use std::num::NonZeroUsize;

/// How many rows are kept at most.
const CAPACITY: usize = 32;

/// The decoding rows of a code. It keeps up to 32 of them, the latest used, by their sources and their
/// wanted column.
#[derive(Drop)]
pub struct Rows {
    code: Code,
    cache: LruCache<(u16, u8), [u8; 16]>,
}

// Clauses see the code.
impl Model for Rows {
    ghost Value = { Code };

    ghost view = { λ r. r.code };

    ghost invariant = { λ r. AreRows r.cache.entries };
}

impl Rows {
    /// The rows of this code, none of them kept yet.
    pub fn new(alloc: Global, code: Code) -> Result<Rows, OutOfMemory>
        ensures { IfOk result (λ r. r ≡ code) }
    {
        let capacity = NonZeroUsize::new(CAPACITY).unwrap_or(NonZeroUsize::MIN);
        let cache = LruCache::new(alloc, capacity)?;
        Ok(Rows { code, cache })
    }

    /// The code that the rows are of.
    pub fn code(&self) -> Code
        ensures { result ≡ self.now }
    {
        self.code
    }

    /// The coefficients of the source columns in the wanted column, and zeros elsewhere: the answer of
    /// `Code::decode_row`. Where memory for keeping a row is refused, it is answered all the same.
    pub fn row(&mut self, sources: u16, wanted: u8) -> [u8; 16]
        requires count { count_ones sources ≡ self.old.k }
        requires below { sources < 2 ^ self.old.n }
        requires wanted { wanted < self.old.n }
        ensures same { result ≡ decode_row_at sources wanted }
        ensures elsewhere { (j : ℕ) → j < 16 → has_column sources j ≡ false → slice_index result j ≡ 0 }
        ensures decodes { (v : List ℕ) → IsCodeword self.old.n self.old.k v → combination result v ≡ slice_index v wanted }
        ensures code { self.new ≡ self.old }
    {
        let key = (sources, wanted);
        if let Some(row) = self.cache.peek(&key).copied() {
            self.cache.promote(&key);
            return row;
        }
        let row = self.code.decode_row(sources, wanted);
        // A row that is not kept is made again when it is next asked for.
        let _kept = self.cache.put(key, row).is_ok();
        row
    }
}

#[cfg(test)]
mod tests {
    use super::*;

    // More patterns of sources than are kept, so rows are answered from the cache and made again.
    #[test]
    fn rows_are_those_of_the_code(rt: HostRuntime) {
        let code = Code::new(16, 8);
        let mut rows = Rows::new(rt.alloc(), code).expect(&rt, "memory");
        for _round in 0..2 {
            let mut patterns = 0;
            for index in 0..1000u16 {
                let sources = index.wrapping_mul(40503);
                let wanted = (index % 16) as u8;
                if patterns < 100 && sources.count_ones() == 8 {
                    patterns += 1;
                    let want = code.decode_row(sources, wanted);
                    assert_eq!(rt; rows.row(sources, wanted), want);
                    assert_eq!(rt; rows.row(sources, wanted), want);
                }
            }
            assert_eq!(rt; patterns, 100);
        }
        assert_eq!(rt; rows.code(), code);
    }

    #[test]
    fn coefficients_by_column(rt: HostRuntime) {
        let mut rows = Rows::new(rt.alloc(), Code::new(4, 2)).expect(&rt, "memory");
        let sources: u16 = 0b0110;
        if sources.count_ones() == 2 {
            let row = rows.row(sources, 0);
            assert_eq!(rt; [row[0], row[1], row[2], row[3]], [0, 0xf5, 0xf4, 0]);
        }
    }
}
