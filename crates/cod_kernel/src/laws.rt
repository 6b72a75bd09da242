//! What a sum of blocks is, place by place. The function does nothing: its clause is a law.
ghost use Rattle.cod_kernel.specs.Sums.{IsSumAtPlaces};

/// Each place of a sum of blocks times their scalars is the sum of the blocks' bytes there, each times its scalar.
#[tactic(auto, using(crate::proofs::SumLaws::added_all_scaled_at))]
pub fn sum_at_each_place()
    ensures { IsSumAtPlaces }
{}
