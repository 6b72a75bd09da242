//! A law of what is generated, the contract of a function that does nothing.
ghost use Rattle.std.specs.Prelude.{ℕ};
ghost use Rattle.cod_gen.specs.Generated.{generated};
ghost use Rattle.cod_script.specs.Sound.{IsScenario};

/// What a number gives is a scenario, as one that is read from a text.
pub fn generated_is_scenario()
    ensures { (number : ℕ) → IsScenario (generated number) }
{}
