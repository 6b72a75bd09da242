//! The commands of the program.
ghost use Rattle.std.specs.Prelude.{◌≡◌, map, string_bytes};
ghost use Rattle.cod_run.specs.Commands.{command_alone, command_of};

/// What the program is asked to do with a scenario.
#[derive(Clone, Copy, Debug, PartialEq, Eq)]
pub enum Command {
    /// Run it, and print what happened.
    Run,
    /// Run it, and print how much happened.
    Summary,
}

/// The command of one word.
fn alone(word: &str) -> Option<Command>
    ensures { result ≡ command_alone word.now }
{
    if word == "run" {
        Some(Command::Run)
    } else if word == "summary" {
        Some(Command::Summary)
    } else {
        None
    }
}

impl Command {
    /// The command that these words are, those after the program's name, if they are one.
    pub fn of(words: &[String]) -> Option<Command>
        ensures { result ≡ command_of (map (λ w. string_bytes w) words.now) }
    {
        match words {
            [word] => alone(word.as_str()),
            _ => None,
        }
    }
}
