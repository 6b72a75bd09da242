//! Runs of zeros, which the second version of a record leaves out.
ghost use Rattle.std.specs.Prelude.{◌≡◌, ◌≢◌, ◌+◌, ◌-◌, ◌<◌, ◌≤◌, ◌++◌, ◌∷◌, ℕ, length, take, drop, replicate, slice_index};
ghost use Rattle.cod_record.specs.Record.{range};
ghost use Rattle.cod_record.specs.Sparse.{ranges_of};

/// The fewest zeros that part two ranges.
pub const RUN: usize = 8;

/// The first place from `at` on whose byte isn't 0, or the end.
pub fn zeros_end(bytes: &[u8], at: usize) -> usize
    requires { at ≤ length bytes.now }
    ensures low { at ≤ result }
    ensures high { result ≤ length bytes.now }
    ensures zeros { drop at bytes.now ≡ replicate (result - at) 0 ++ drop result bytes.now }
    ensures some { result < length bytes.now → slice_index bytes.now result ≢ 0 }
{
    let mut end = at;
    'zeros: while end < bytes.len() && bytes[end] == 0 {
        end += 1;
    }
    end
}

/// The place behind the range that begins at `start`.
pub fn range_end(bytes: &[u8], start: usize) -> usize
    requires inside { start < length bytes.now }
    requires some { slice_index bytes.now start ≢ 0 }
    ensures low { start < result }
    ensures high { result ≤ length bytes.now }
    ensures first { (off : ℕ)
        → ranges_of (off + start) (drop start bytes.now) ≡ range (off + start) (take (result - start) (drop start bytes.now)) ∷ ranges_of (off + result)
        (drop result bytes.now) }
{
    let mut last = start;
    'bytes: loop {
        let next = zeros_end(bytes, last + 1);
        if next == bytes.len() || RUN <= next - (last + 1) {
            return last + 1;
        }
        last = next;
    }
}
