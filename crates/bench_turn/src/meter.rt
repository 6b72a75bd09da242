//! The value that is taken in turns.
ghost use Rattle.std.specs.Prelude.{◌≡◌};

use cod_chronicle::{Chronicle, Stands};

/// A count beside a chronicle that stays empty.
#[derive(Drop)]
pub struct Meter {
    pub chronicle: Chronicle,
    pub count: u64,
}

impl Stands for Meter {
    ghost use Rattle.std.specs.Prelude.{[], None};

    ghost entries = { λ m. m.chronicle };

    ghost name = { λ _. [] };

    ghost gauge = { λ _. [] };

    ghost open_calls = { λ _ _. None };

    ghost event = { λ _ _ _ _ _ _ _. Unit {0} };

    fn chronicle(&self) -> &Chronicle {
        &self.chronicle
    }
}

impl Meter {
    /// The work of one hold: so many steps of a generator of numbers.
    pub fn work(&mut self, steps: u32)
        ensures { self.new.chronicle ≡ self.old.chronicle }
    {
        let mut count = self.count;
        for _ in 0..steps {
            count = count
                .wrapping_mul(6_364_136_223_846_793_005)
                .wrapping_add(1_442_695_040_888_963_407);
            count ^= count >> 29;
        }
        self.count = count;
    }
}
