//! A run of anything that makes turns.
ghost use Rattle.std.specs.Prelude.{◌≡◌, ◌<◌, ◌↔◌, length, IsTrue};
ghost use Rattle.cod_turns.specs.Open.{AreItsCalls};
ghost use Rattle.cod_turns.specs.Rounds.{IsRunFrom, round, Takings, turns_of, TurnsWork};
ghost use Rattle.cod_script.specs.Sound.{IsScenario};

use crate::turned::Turned;

/// What makes turns of clients, and keeps its whole scenario meanwhile.
pub trait Machine {
    ghost use Rattle.std.specs.Prelude.{ℕ};
    ghost use Rattle.cod_turns.specs.Turns.{World, Course, Turn, AllEnded};
    ghost use Rattle.cod_turns.specs.Rounds.{IsProgress};

    ghost course: { Self → Course };

    ghost world: { Self → World };

    // the work that is left for the calls in progress, and what it never passes
    ghost work: { Self → ℕ };

    ghost most: { Self → ℕ };

    // what one turn of a client makes of it
    ghost takes: { Course → ℕ → Self → Self → Type 0 };

    /// How many clients there are.
    fn clients(&self) -> u32
        ensures { result ≡ length (course self.now).script.clients };

    /// The clients whose turns come first, in order.
    fn schedule(&self) -> &[u32]
        ensures { result.now ≡ (course self.now).script.schedule };

    /// One turn of a client.
    fn turn(&mut self, client: u32) -> Turned
        requires { client < length (course self.old).script.clients }
        ensures turn { Turn (course self.old) client (world self.old) (world self.new) result }
        ensures work { IsProgress (most self.old) result (work self.old) (work self.new) }
        ensures takes { takes (course self.old) client self.old self.new }
        ensures course { course self.new ≡ course self.old }
        ensures most { most self.new ≡ most self.old };

    /// Whether each client has ended.
    fn is_ended(&self) -> bool
        ensures { (IsTrue result) ↔ (AllEnded (course self.now).script (world self.now)) };
}

/// The turns of the schedule.
pub fn scheduled_turns<M: Machine>(m: &mut M)
    requires { IsScenario (M.course m.old).script }
    ensures turns { TurnsWork (M.course m.old) (M.most m.old) (M.course m.old).script.schedule (M.world m.old) (M.world m.new) (M.work m.old) (M.work m.new) }
    ensures takes { Takings (M.takes (M.course m.old)) (M.course m.old).script.schedule m.old m.new }
    ensures course { M.course m.new ≡ M.course m.old }
    ensures most { M.most m.new ≡ M.most m.old }
{
    let turns = m.schedule().len();
    for i in 0..turns {
        let client = m.schedule()[i];
        m.turn(client);
    }
}

/// One turn of each client, in order.
pub fn one_round<M: Machine>(m: &mut M)
    ensures turns { TurnsWork (M.course m.old) (M.most m.old) (round (M.course m.old).script) (M.world m.old) (M.world m.new) (M.work m.old) (M.work m.new) }
    ensures takes { Takings (M.takes (M.course m.old)) (round (M.course m.old).script) m.old m.new }
    ensures course { M.course m.new ≡ M.course m.old }
    ensures most { M.most m.new ≡ M.most m.old }
{
    let clients = m.clients();
    for client in 0..clients {
        m.turn(client);
    }
}

/// A run: the turns of the schedule, and then rounds of all clients until each has ended. These are all turns that are made.
pub fn run<M: Machine>(m: &mut M)
    requires scenario { IsScenario (M.course m.old).script }
    requires calls { AreItsCalls (M.course m.old).script (M.world m.old) }
    ensures run { (run : IsRunFrom (M.course m.old) (M.world m.old) (M.world m.new))
        × Takings (M.takes (M.course m.old)) (turns_of (M.course m.old).script run.count) m.old m.new }
    ensures course { M.course m.new ≡ M.course m.old }
{
    scheduled_turns(m);
    'rounds: while !m.is_ended() {
        one_round(m);
    }
}
