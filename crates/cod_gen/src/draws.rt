//! Numbers that are drawn one after another.
ghost use Rattle.std.specs.Prelude.{◌≡◌, ◌<◌};
ghost use Rattle.cod_gen.specs.Drawn.{drawn, next_state};

const FACTOR: u64 = 6364136223846793005;

const STEP: u64 = 1442695040888963407;

/// The state that follows a state.
pub fn next(state: u64) -> u64
    ensures { result ≡ next_state state }
{
    state.wrapping_mul(FACTOR).wrapping_add(STEP)
}

/// A number below `m`, drawn from a state, which becomes the next one.
pub fn draw(state: &mut u64, m: u32) -> u32
    requires { 0 < m }
    ensures value { result ≡ drawn m state.old }
    ensures state { state.new ≡ next_state state.old }
    ensures below { result < m }
{
    *state = next(*state);
    ((*state >> 33) % m as u64) as u32
}
