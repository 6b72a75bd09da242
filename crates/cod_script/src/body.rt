//! What stands behind the header of a scenario, gathered line by line.
ghost use Rattle.std.specs.Prelude.{◌≡◌, OnOk, ◌++◌, ◌∷◌, [], map, length, ◌<◌, slice_index_or};
ghost use Rattle.cod_script.specs.Script.{nobody, clients_without, onto_last};

use crate::line::Line;
use crate::name::Name;
use cod_types::OutOfMemory;
use std::alloc::Global;
use std::marker::Model;
use std::mem;

/// A client: its name and its lines.
#[derive(Drop)]
pub struct Client {
    name: Name,
    lines: Vec<Line>,
}

impl Model for Client {
    ghost use Rattle.cod_script.specs.Script as script;

    ghost Value = { script.Client };

    ghost view = { λ c. record { name = c.name; lines = c.lines.items } };
}

impl Client {
    fn new(alloc: Global, name: Name) -> Client
        ensures { result ≡ record { name = name; lines = [] } }
    {
        Client {
            name,
            lines: Vec::new(alloc),
        }
    }

    fn push(&mut self, line: Line) -> Result<(), OutOfMemory>
        ensures { OnOk result (self.new ≡ record { name = self.old.name; lines = self.old.lines ++ line ∷ [] }) }
    {
        self.lines.push(line)?;
        Ok(())
    }

    /// Moves the lines out, and leaves none.
    fn take_lines(&mut self) -> Vec<Line>
        ensures lines { result.items ≡ self.old.lines }
        ensures rest { self.new ≡ record { name = self.old.name; lines = [] } }
    {
        let none = Vec::new(*self.lines.allocator());
        mem::replace(&mut self.lines, none)
    }

    /// The client's name.
    pub fn name(&self) -> &str
        ensures { result.now ≡ self.now.name }
    {
        self.name.as_str()
    }

    /// The client's lines, in order.
    pub fn lines(&self) -> &[Line]
        ensures { result.now ≡ self.now.lines }
    {
        self.lines.as_slice()
    }
}

/// The segments, the clients with their lines, the schedule and the care workers.
#[derive(Drop)]
pub struct Body {
    segments: Vec<Name>,
    clients: Vec<Client>,
    schedule: Vec<u32>,
    workers: u32,
    rounds: u32,
}

impl Model for Body {
    ghost use Rattle.cod_script.specs.Script as script;

    ghost Value = { script.Body };

    ghost view = { λ p. record {
      segments = p.segments.items;
      clients = p.clients.items;
      schedule = p.schedule.items;
      workers = p.workers;
      rounds = p.rounds;
    } };
}

/// One line more for the last client.
fn push_line(clients: &mut [Client], line: Line) -> Result<(), OutOfMemory>
    ensures { OnOk result (clients.new ≡ onto_last clients.old line) }
{
    if clients.is_empty() {
        return Ok(());
    }
    let last = clients.len() - 1;
    clients[last].push(line)?;
    Ok(())
}

impl Body {
    /// A body in which nothing stands.
    pub fn new(alloc: Global) -> Body
        ensures { result ≡ record { segments = []; clients = []; schedule = []; workers = 0; rounds = 0 } }
    {
        Body {
            segments: Vec::new(alloc),
            clients: Vec::new(alloc),
            schedule: Vec::new(alloc),
            workers: 0,
            rounds: 0,
        }
    }

    /// Adds a segment.
    pub fn push_segment(&mut self, name: Name) -> Result<(), OutOfMemory>
        ensures { OnOk result (self.new ≡ record self.old { segments = self.old.segments ++ name ∷ [] }) }
    {
        self.segments.push(name)?;
        Ok(())
    }

    /// Adds a client, which has no line yet.
    pub fn push_client(&mut self, alloc: Global, name: Name) -> Result<(), OutOfMemory>
        ensures { OnOk result (self.new ≡ record self.old { clients = self.old.clients ++ record { name = name; lines = [] } ∷ [] }) }
    {
        self.clients.push(Client::new(alloc, name))?;
        Ok(())
    }

    /// Adds a line to the last client. Where there is none, nothing is added.
    pub fn push_line(&mut self, line: Line) -> Result<(), OutOfMemory>
        ensures { OnOk result (self.new ≡ record self.old { clients = onto_last self.old.clients line }) }
    {
        push_line(self.clients.as_mut_slice(), line)
    }

    /// Adds clients, by their numbers, whose turns come next.
    pub fn push_turns(&mut self, turns: &[u32]) -> Result<(), OutOfMemory>
        ensures { OnOk result (self.new ≡ record self.old { schedule = self.old.schedule ++ turns.now }) }
    {
        self.schedule.extend_from_slice(turns)?;
        Ok(())
    }

    /// Sets how many care workers there are, and the rounds of each.
    pub fn set_care(&mut self, workers: u32, rounds: u32)
        ensures { self.new ≡ record self.old { workers = workers; rounds = rounds } }
    {
        self.workers = workers;
        self.rounds = rounds;
    }

    /// The names of the segments, in order.
    pub fn segments(&self) -> &[Name]
        ensures { result.now ≡ self.now.segments }
    {
        self.segments.as_slice()
    }

    /// The clients, in order.
    pub fn clients(&self) -> &[Client]
        ensures { result.now ≡ self.now.clients }
    {
        self.clients.as_slice()
    }

    /// The clients whose turns come first, in order.
    pub fn schedule(&self) -> &[u32]
        ensures { result.now ≡ self.now.schedule }
    {
        self.schedule.as_slice()
    }

    /// The number of care workers, and of the rounds of each.
    pub fn care(&self) -> (u32, u32)
        ensures { (result.0 ≡ self.now.workers) × (result.1 ≡ self.now.rounds) }
    {
        (self.workers, self.rounds)
    }

    /// Moves a client's lines out, and leaves it none.
    pub(crate) fn take_lines(&mut self, client: usize) -> Vec<Line>
        requires { client < length self.old.clients }
        ensures lines { result.items ≡ (slice_index_or self.old.clients client nobody).lines }
        ensures rest { self.new ≡ record self.old { clients = clients_without self.old.clients client } }
    {
        take_lines(self.clients.as_mut_slice(), client)
    }
}

/// Moves the lines out of one of these clients, and leaves it none.
fn take_lines(clients: &mut [Client], client: usize) -> Vec<Line>
    requires { client < length clients.old }
    ensures lines { result.items ≡ (slice_index_or clients.old client nobody).lines }
    ensures rest { clients.new ≡ clients_without clients.old client }
{
    clients[client].take_lines()
}
