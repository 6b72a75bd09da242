//! Laws of texts, each the contract of a function that does nothing.
ghost use Rattle.std.specs.Prelude.{◌≡◌, ◌<◌, ◌^◌, ℕ, List, Ok};
ghost use Rattle.cod_scenario.specs.Reads.{reads};
ghost use Rattle.cod_script.specs.Script.{Script};
ghost use Rattle.cod_script.specs.Sound.{IsScenario, line_count};

/// What a text gives has what every scenario has: counts and numbers within their limits, lines that name what is there, an
/// upgrade only where the version is 2, and room for its columns. Its clients have fewer than 2^24 lines.
pub fn text_is_scenario()
    ensures sound { (text : List ℕ) (p : Script) → reads text ≡ Ok p → IsScenario p }
    ensures few { (text : List ℕ) (p : Script) → reads text ≡ Ok p → line_count p.clients < 2 ^ 24 }
{}
