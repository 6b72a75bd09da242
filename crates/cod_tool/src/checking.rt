//! The line that says how much a scenario asks for.
ghost use Rattle.std.specs.Prelude.{◌≡◌, ◌≤◌, ◌<◌, ◌^◌, [], ◌∷◌, length};
ghost use Rattle.cod_types.specs.Faults.{HasCause};
ghost use Rattle.cod_script.specs.Script.{asks};
ghost use Rattle.cod_print.specs.Puts.{Puts};
ghost use Rattle.cod_tool.specs.Fit.{calls_of};
ghost use Rattle.cod_tool.specs.Planned.{check_text};

use cod_io::Sink;
use cod_print::WriteFault;
use cod_script::{Line, Scenario, What};
use cod_shell::pieces::{Count, counts};

/// How many segment calls a line asks for.
fn calls_in(line: &Line) -> u64
    ensures calls { result ≡ length (asks (line.now ∷ [])) }
    ensures most { result ≤ 1 }
{
    match &line.what {
        What::Segment { seg: _, call: _ } => 1,
        What::Fail { node: _ } => 0,
    }
}

/// How many segment calls some lines ask for.
fn calls(lines: &[Line]) -> u64
    ensures { result ≡ length (asks lines.now) }
{
    let mut count = 0;
    for line in lines {
        count += calls_in(line);
    }
    count
}

/// How many segment calls all clients are to make.
fn all_calls(names: &Scenario) -> u64
    requires { calls_of names.now < 2 ^ 32 }
    ensures { result ≡ calls_of names.now }
{
    let mut count = 0;
    for client in 0..names.clients() {
        count += calls(names.lines(client));
    }
    count
}

/// Writes the numbers of a scenario's segments, clients and segment calls. It fails only where the sink does, and has then
/// written a front of the line.
pub fn print<W: Sink>(sink: &mut W, names: &Scenario) -> Result<(), WriteFault>
    requires { calls_of names.now < 2 ^ 32 }
    ensures text { Puts result (W.taken sink.old) (W.taken sink.new) (check_text names.now) }
    ensures cause { HasCause (W.fault_count sink.old) (W.fault_count sink.new) result }
{
    let segments = Count {
        front: b"ok segments ",
        number: names.segments() as u64,
    };
    let clients = Count {
        front: b" clients ",
        number: names.clients() as u64,
    };
    let calls = Count {
        front: b" calls ",
        number: all_calls(names),
    };
    counts(sink, segments, clients, calls)
}
