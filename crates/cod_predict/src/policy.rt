//! A rule for the average, and a rule that is kept with what is known of it.
ghost use Rattle.std.specs.Prelude.{◌≡◌, ◌≤◌, ℕ, Bool, IsTrue};
ghost use Rattle.cod_predict.specs.Average.{InRange};

/// A rule that gives the moving average of the use of reserved space, in ten-thousandths.
pub trait Rule: Drop {
    // the numbers on which the rule may be asked: bytes in use, bytes of the size, and the average so far
    ghost may: { Self → ℕ → ℕ → ℕ → Bool };

    // and what it answers there
    ghost answer: { Self → ℕ → ℕ → ℕ → ℕ };

    /// The next average, from the bytes in use, the bytes of the size, and the average so far.
    fn average(&self, used: u32, size: u32, avg: u32) -> u32
        requires { IsTrue (may self.now used size avg) }
        ensures { result ≡ answer self.now used size avg };
}

/// A stored rule beside what is known of it: for each size from 1 to 4194304, each use of it and each average so far of at
/// most 10000, it may be asked and answers at most 10000.
#[derive(Drop)]
pub struct Policy<R: Rule> {
    rule: R,
    ghost callable: { (used size avg : ℕ) → InRange used size avg → IsTrue (R.may rule used size avg) },
    ghost small: { (used size avg : ℕ) → InRange used size avg → R.answer rule used size avg ≤ 10000 },
}

impl<R: Rule> Policy<R> {
    /// Stores a rule that may be asked on the whole range and answers at most 10000 there. It takes no memory.
    pub fn new(rule: R) -> Policy<R>
        requires callable { (used size avg : ℕ) → InRange used size avg → IsTrue (R.may rule used size avg) }
        requires small { (used size avg : ℕ) → InRange used size avg → R.answer rule used size avg ≤ 10000 }
        ensures { result.rule ≡ rule }
    {
        Policy { rule }
    }

    /// The next average, in ten-thousandths: what the stored rule answers for the bytes in use, the bytes of the size, and
    /// the average so far.
    pub fn next(&self, used: u32, size: u32, avg: u32) -> u32
        requires { InRange used size avg }
        ensures value { result ≡ R.answer self.now.rule used size avg }
        ensures small { result ≤ 10000 }
    {
        self.rule.average(used, size, avg)
    }
}
