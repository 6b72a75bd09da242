//! Sums of blocks of bytes in the field of 256 elements, place by place.
//!
//! The sum of two bytes is their exclusive or, and their product that of `cod_field`. Vectors do most
//! of the work: a product is looked up by the two halves of a byte, since it is linear in them.
#![tactic(auto)]

mod blocks;
mod laws;
mod passes;
mod products;
mod window;

ghost use Rattle.std.specs.Prelude.{◌≡◌, ◌+◌, ◌≤◌, ◌∷◌, [], length, map, drop, replicate, All};
ghost use Rattle.std.specs.Simd.Lanes.{chunk};
ghost use Rattle.cod_field.specs.Field.{product};
ghost use Rattle.cod_kernel.specs.Sums.{added, added_scaled, added_all_scaled};

use blocks::{Scaled, Sum, times};
pub use laws::sum_at_each_place;
use passes::{add_block, add_blocks, set_block, set_blocks};
pub use window::add_window;

/// Adds each place of `src` to that of `dst`, which has the same length.
pub fn add(dst: &mut [u8], src: &[u8])
    requires { length dst.old ≡ length src.now }
    ensures { dst.new ≡ added dst.old src.now }
{
    add_block(dst, src)
}

/// Adds `c` times each place of `src` to that of `dst`, which has the same length.
pub fn add_scaled(dst: &mut [u8], c: u8, src: &[u8])
    requires { length dst.old ≡ length src.now }
    ensures { dst.new ≡ added_scaled c dst.old src.now }
{
    add_block(dst, times(c, src))
}

/// Adds `c` times each place of `src` to that of `first`, and `d` times it to that of `second`, in one pass.
pub fn add_scaled_to_both(first: &mut [u8], c: u8, second: &mut [u8], d: u8, src: &[u8])
    requires first { length first.old ≡ length src.now }
    requires second { length second.old ≡ length src.now }
    ensures first { first.new ≡ added_scaled c first.old src.now }
    ensures second { second.new ≡ added_scaled d second.old src.now }
{
    add_blocks(first, times(c, src), second, times(d, src))
}

/// Sets each place of `dst` to `c` times that of `src`, which has the same length. Nothing of `dst` is read.
pub fn set_scaled(dst: &mut [u8], c: u8, src: &[u8])
    requires { length dst.old ≡ length src.now }
    ensures { dst.new ≡ map (product c) src.now }
{
    set_block(dst, times(c, src))
}

/// Adds each source times its scalar to `dst`, all of one length.
///
/// The outcome is that of `add_scaled` for each source in turn. Four sources take one pass over
/// `dst`, so it is faster.
pub fn add_all_scaled(dst: &mut [u8], scalars: &[u8], sources: &[&[u8]])
    requires same_count { length scalars.now ≡ length sources.now }
    requires same_length { All (λ source. length source.now ≡ length dst.old) sources.now }
    ensures { dst.new ≡ added_all_scaled dst.old scalars.now (map (λ source. source.now) sources.now) }
{
    add_from(0, dst, scalars, sources)
}

/// Sets `dst` to the sum of each source times its scalar, all of one length.
///
/// The outcome is that of `add_all_scaled` on zeros, and nothing of `dst` is read.
pub fn set_all_scaled(dst: &mut [u8], scalars: &[u8], sources: &[&[u8]])
    requires same_count { length scalars.now ≡ length sources.now }
    requires same_length { All (λ source. length source.now ≡ length dst.old) sources.now }
    ensures { dst.new ≡ added_all_scaled (replicate (length dst.old) 0) scalars.now (map (λ source. source.now) sources.now) }
{
    if sources.len() >= 4 {
        set_block(dst, four_from(0, scalars, sources));
        add_from(4, dst, scalars, sources)
    } else if sources.len() >= 1 {
        set_block(dst, times(scalars[0], sources[0]));
        add_from(1, dst, scalars, sources)
    } else {
        dst.fill(0)
    }
}

/// Sets each of two destinations to the sum of each source times its scalar there, all of one length.
///
/// The outcome is that of `set_all_scaled` for each in turn. The first four sources take one pass over both.
pub fn set_all_scaled_to_both(
    first: &mut [u8],
    scalars: &[u8],
    second: &mut [u8],
    others: &[u8],
    sources: &[&[u8]],
)
    requires first_count { length scalars.now ≡ length sources.now }
    requires first_length { All (λ source. length source.now ≡ length first.old) sources.now }
    requires second_count { length others.now ≡ length sources.now }
    requires second_length { All (λ source. length source.now ≡ length second.old) sources.now }
    ensures first { first.new ≡ added_all_scaled (replicate (length first.old) 0) scalars.now (map (λ source. source.now) sources.now) }
    ensures second { second.new ≡ added_all_scaled (replicate (length second.old) 0) others.now (map (λ source. source.now) sources.now) }
{
    if sources.len() < 4 {
        set_all_scaled(first, scalars, sources);
        return set_all_scaled(second, others, sources);
    }
    let to_first = four_from(0, scalars, sources);
    let to_second = four_from(0, others, sources);
    set_blocks(first, to_first, second, to_second);
    add_from(4, first, scalars, sources);
    add_from(4, second, others, sources)
}

/// Adds the sources from `start` on.
fn add_from(start: usize, dst: &mut [u8], scalars: &[u8], sources: &[&[u8]])
    requires within { start ≤ length sources.now }
    requires same_count { length scalars.now ≡ length sources.now }
    requires same_length { All (λ source. length source.now ≡ length dst.old) sources.now }
    ensures { dst.new ≡ added_all_scaled dst.old (drop start scalars.now) (map (λ source. source.now) (drop start sources.now)) }
{
    let mut next = start;
    'fours: while sources.len() - next >= 4 {
        add_block(dst, four_from(next, scalars, sources));
        next += 4;
    }
    'rest: for j in next..sources.len() {
        add_scaled(dst, scalars[j], sources[j]);
    }
}

type Pair<'a> = Sum<Scaled<'a>, Scaled<'a>>;

/// The sum of four sources times their scalars, from `start` on.
#[inline(always)]
fn four_from<'a>(start: usize, scalars: &[u8], sources: &[&'a [u8]]) -> Sum<Pair<'a>, Pair<'a>>
    requires scalars { start + 4 ≤ length scalars.now }
    requires sources { start + 4 ≤ length sources.now }
    ensures scalars { (result.first.first.products.scalar ∷ result.first.second.products.scalar
        ∷ result.second.first.products.scalar ∷ result.second.second.products.scalar ∷ [])
        ≡ chunk start 4 scalars.now }
    ensures sources { (result.first.first.source.now ∷ result.first.second.source.now
        ∷ result.second.first.source.now ∷ result.second.second.source.now ∷ [])
        ≡ map (λ source. source.now) (chunk start 4 sources.now) }
{
    Sum {
        first: Sum {
            first: times(scalars[start], sources[start]),
            second: times(scalars[start + 1], sources[start + 1]),
        },
        second: Sum {
            first: times(scalars[start + 2], sources[start + 2]),
            second: times(scalars[start + 3], sources[start + 3]),
        },
    }
}

#[cfg(test)]
mod tests;
