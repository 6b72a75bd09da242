//! What is asked of each segment in turn.
ghost use Rattle.std.specs.Prelude.{◌≡◌};
ghost use Rattle.cod_gen.specs.Drafting.{call_of};

use cod_types::Call;

/// What is asked of each segment in turn.
#[derive(Clone, Copy)]
pub enum Care {
    Merge,
    Tick,
    Rebuild,
}

impl Care {
    /// The call that asks for it.
    pub fn call(self) -> Call
        ensures { result ≡ call_of self }
    {
        match self {
            Care::Merge => Call::Merge,
            Care::Tick => Call::Tick,
            Care::Rebuild => Call::Rebuild,
        }
    }
}
