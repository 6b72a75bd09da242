//! The scenario that a number gives.
ghost use Rattle.std.specs.Prelude.{◌≡◌, IfOk, true, []};
ghost use Rattle.cod_types.specs.Limits.{shape};
ghost use Rattle.cod_words.specs.Words.{is_name};
ghost use Rattle.cod_gen.specs.Generated.{all_clients, all_segments, generated, name_of};

use crate::draft::{Draft, SEGMENTS};
use cod_script::{Body, Name, Scenario};
use cod_types::{Geometry, OutOfMemory};
use itoa::Buffer;
use std::alloc::Global;

/// How many clients there are.
const CLIENTS: u32 = 8;

/// How many nodes there are.
const NODES: u8 = 12;

/// How many bytes each node has.
const CAPACITY: u32 = 16777216;

/// How many lines the header has.
const HEADER: u32 = 8;

/// A letter and a number.
fn name(alloc: Global, letter: u8, number: u32) -> Result<Name, OutOfMemory>
    requires { is_name (name_of letter number) ≡ true }
    ensures { IfOk result (λ n. n ≡ name_of letter number) }
{
    let mut digits = Buffer::new();
    let mut text = Vec::new(alloc);
    text.push(letter)?;
    text.extend_from_slice(digits.format(number).as_bytes())?;
    Name::copy(alloc, text.as_slice())
}

/// The geometry of each segment.
fn geometry() -> Geometry
    ensures { result ≡ shape 1 6 4 65536 4096 65536 4096 5000 }
{
    let Ok(geometry) = Geometry::new(6, 4, 65536, 4096, 65536, 4096, 5000) else {
        unreachable!()
    };
    geometry
}

/// A body with the segments alone.
fn segments(alloc: Global) -> Result<Body, OutOfMemory>
    ensures { IfOk result (λ b. b ≡ record { segments = all_segments; clients = []; schedule = []; workers = 0; rounds = 0 }) }
{
    let mut body = Body::new(alloc);
    for seg in 0..SEGMENTS {
        body.push_segment(name(alloc, b's', seg)?)?;
    }
    Ok(body)
}

/// The segments and the clients with their lines.
fn body(alloc: Global, number: u32) -> Result<Body, OutOfMemory>
    ensures { IfOk result (λ b. b ≡ record {
      segments = all_segments;
      clients = all_clients number;
      schedule = [];
      workers = 0;
      rounds = 0;
    }) }
{
    let mut draft = Draft::new(segments(alloc)?, HEADER + SEGMENTS, number);
    for client in 0..CLIENTS {
        draft.push_client(alloc, name(alloc, b'c', client)?)?;
        draft.rounds(alloc, client)?;
    }
    Ok(draft.into_body())
}

/// The scenario that a number gives: eight clients that write and read at random, fail two of the twelve nodes, rebuild, merge
/// and shrink. Its lines are numbered as in its canonical text. It is refused only where memory runs out.
pub fn generate(alloc: Global, number: u32) -> Result<Scenario, OutOfMemory>
    ensures { IfOk result (λ s. s ≡ generated number) }
{
    Ok(Scenario::new(geometry(), NODES, CAPACITY, body(alloc, number)?))
}
