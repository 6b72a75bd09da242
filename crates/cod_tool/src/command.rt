//! The commands of the program.
ghost use Rattle.std.specs.Prelude.{◌≡◌, ℕ, map, string_bytes, Some};
ghost use Rattle.cod_words.specs.Words.{number_of};
ghost use Rattle.cod_tool.specs.declared.command.Command.TheVariants.{Code};
ghost use Rattle.cod_tool.specs.Commands.{IsCode, code_of, command_alone, command_of, command_with, gen_of, load_of};

use cod_words::word_number;

/// What a scenario is read for.
#[derive(Clone, Copy, Debug, PartialEq, Eq)]
pub enum Purpose {
    /// Replay it, and print what happened.
    Replay,
    /// Replay it, and print how much happened.
    Summary,
    /// Print how many segments, clients and calls it has.
    Check,
    /// Print where its columns stand at first, and what they take on each node.
    Plan,
}

/// What the program is asked to do.
#[derive(Clone, Copy, Debug, PartialEq, Eq)]
pub enum Command {
    /// Read a scenario.
    Scenario(Purpose),
    /// Print the coefficients of the code with `n` columns, of which `k` are data.
    Code { n: u8, k: u8 },
    /// Print the scenario that a number gives.
    Gen(u32),
    /// Replay the scenario that a number gives, and print how much happened.
    Load(u32),
}

/// The command of one word.
fn alone(word: &str) -> Option<Command>
    ensures { result ≡ command_alone word.now }
{
    if word == "replay" {
        Some(Command::Scenario(Purpose::Replay))
    } else if word == "summary" {
        Some(Command::Scenario(Purpose::Summary))
    } else if word == "check" {
        Some(Command::Scenario(Purpose::Check))
    } else if word == "plan" {
        Some(Command::Scenario(Purpose::Plan))
    } else {
        None
    }
}

/// The code with these numbers of columns and of data columns.
fn code(columns: &[u8], data_columns: &[u8]) -> Option<Command>
    ensures { result ≡ code_of (number_of columns.now) (number_of data_columns.now) }
{
    let n = word_number(columns)?;
    let k = word_number(data_columns)?;
    if 1 <= k && k <= n && n <= 16 {
        Some(Command::Code {
            n: n as u8,
            k: k as u8,
        })
    } else {
        None
    }
}

/// The scenario with this number, where the word is one.
fn generated(number: &[u8]) -> Option<Command>
    ensures { result ≡ gen_of (number_of number.now) }
{
    Some(Command::Gen(word_number(number)?))
}

/// The replay of the scenario with this number, where the word is one.
fn loaded(number: &[u8]) -> Option<Command>
    ensures { result ≡ load_of (number_of number.now) }
{
    Some(Command::Load(word_number(number)?))
}

/// The command of a word and a number.
fn numbered(word: &str, number: &[u8]) -> Option<Command>
    ensures { result ≡ command_with word.now number.now }
{
    if word == "gen" {
        generated(number)
    } else if word == "load" {
        loaded(number)
    } else {
        None
    }
}

impl Command {
    /// The command that these words are, those after the program's name, if they are one.
    #[tactic(auto, using(crate::proofs::Words::code_limits))]
    pub fn of(words: &[String]) -> Option<Command>
        ensures limits { (n k : ℕ) → result ≡ Some (Code n k) → IsCode n k }
        ensures command { result ≡ command_of (map (λ w. string_bytes w) words.now) }
    {
        match words {
            [word] => alone(word.as_str()),
            [word, number] => numbered(word.as_str(), number.as_bytes()),
            [word, n, k] if word.as_str() == "code" => code(n.as_bytes(), k.as_bytes()),
            _ => None,
        }
    }
}
