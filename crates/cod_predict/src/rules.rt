//! The two rules that are in use.
ghost use Rattle.std.specs.Prelude.{◌≡◌, ◌≤◌, ◌&&◌, ℕ, nat_le, nat_lt};
ghost use Rattle.cod_predict.specs.Average.{next_average, used_share};

use crate::{Policy, Rule};
use cod_types::Geometry;

/// The newest use weighs `alpha` ten-thousandths, and the average so far weighs the rest.
#[derive(Drop)]
pub struct Weighted {
    /// The weight of the newest use, in ten-thousandths.
    pub alpha: u32,
}

impl Rule for Weighted {
    ghost may = { λ rule used size avg. nat_le rule.alpha 10000 && nat_lt 0 size && nat_le used size && nat_le avg 10000 };

    ghost answer = { λ rule used size avg. next_average rule.alpha used size avg };

    fn average(&self, used: u32, size: u32, avg: u32) -> u32 {
        let newest = self.alpha as u64 * share(used, size);
        let earlier = (10_000 - self.alpha) as u64 * avg as u64;
        ((newest + earlier) / 10_000) as u32
    }
}

impl Policy<Weighted> {
    /// The rule by which reserved space shrinks: a moving average in which the newest use weighs `alpha` ten-thousandths,
    /// at most 10000.
    pub fn weighted(alpha: u32) -> Policy<Weighted>
        requires { alpha ≤ 10000 }
        ensures rule { result.rule.alpha ≡ alpha }
        ensures answers { (used size avg : ℕ) → ⟦<Weighted as Rule>⟧.answer result.rule used size avg ≡ next_average alpha used size avg }
    {
        Policy::new(Weighted { alpha })
    }

    /// That rule with the weight that a segment's geometry has.
    pub fn of(g: &Geometry) -> Policy<Weighted>
        ensures { result.rule.alpha ≡ g.now.alpha }
    {
        let _columns = g.k(); // the limits of a geometry are told here
        Policy::weighted(g.alpha())
    }
}

/// The newest use alone.
#[derive(Drop)]
pub struct Newest;

impl Rule for Newest {
    ghost may = { λ rule used size avg. nat_lt 0 size && nat_le used size };

    ghost answer = { λ rule used size avg. used_share used size };

    fn average(&self, used: u32, size: u32, _avg: u32) -> u32 {
        share(used, size) as u32
    }
}

impl Policy<Newest> {
    /// The rule by which a column that moves to another node gets its new size: the newest use alone.
    pub fn newest() -> Policy<Newest>
        ensures answers { (used size avg : ℕ) → ⟦<Newest as Rule>⟧.answer result.rule used size avg ≡ used_share used size }
    {
        Policy::new(Newest)
    }
}

/// The used part of a size, in ten-thousandths.
fn share(used: u32, size: u32) -> u64
    requires some { 1 ≤ size }
    requires within { used ≤ size }
    ensures value { result ≡ used_share used size }
    ensures most { result ≤ 10000 }
{
    used as u64 * 10_000 / size as u64
}
