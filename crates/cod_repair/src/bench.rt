//! The memory that columns are worked on in, taken once.
ghost use Rattle.std.specs.Prelude.{◌≡◌, ◌+◌, ◌*◌, ◌<◌, ◌≤◌, ◌^◌, ℕ, length, IfOk};
ghost use Rattle.cod_types.specs.Limits.{segment_length};
ghost use Rattle.cod_code.specs.Codewords.{AreBytes};
ghost use Rattle.cod_code.specs.Columns.{gamma};
ghost use Rattle.cod_code.specs.Segments.{column};

use cod_code::Code;
use cod_kernel::set_all_scaled;
use cod_rows::Rows;
use cod_types::{Geometry, OutOfMemory};
use std::alloc::Global;
use std::marker::Model;

/// The bytes that windows may have in all.
const WINDOWS: usize = 1 << 20;

/// What the calls of a geometry's columns need beside the columns: scratch bytes for a parity column's block and log, a
/// block's bytes, windows into which sources are read, and decoding rows. It takes at most 7 MiB, and is seen as the geometry.
#[derive(Drop)]
pub struct Bench {
    pub(crate) shape: Geometry,
    pub(crate) rows: Rows,
    pub(crate) scratch: Vec<u8>,
    pub(crate) block: Vec<u8>,
    pub(crate) windows: Vec<u8>,
}

impl Model for Bench {
    ghost use Rattle.std.specs.Prelude.{vec_len};
    ghost use Rattle.cod_types.specs.Limits.{Shape};
    ghost use Rattle.cod_repair.specs.Benches.{IsBench};

    ghost Value = { Shape };

    ghost view = { λ b. b.shape };

    ghost invariant = { λ b. IsBench b.shape b.rows (vec_len b.scratch) (vec_len b.block) (vec_len b.windows) };
}

impl Bench {
    /// A bench for columns of this geometry.
    pub fn new(alloc: Global, g: &Geometry) -> Result<Bench, OutOfMemory>
        ensures { IfOk result (λ b. b ≡ g.now) }
    {
        let block = g.block() as usize;
        Ok(Bench {
            shape: *g,
            rows: Rows::new(alloc, Code::new(g.n(), g.k()))?,
            scratch: vec![in alloc; 0; block + g.reserve() as usize]?,
            block: vec![in alloc; 0; block]?,
            windows: vec![in alloc; 0; (4 * block).min(WINDOWS)]?,
        })
    }

    /// The geometry.
    pub fn geometry(&self) -> Geometry
        ensures { result ≡ self.now }
    {
        self.shape
    }

    /// The coefficient of a data block in a column.
    pub(crate) fn coefficient(&self, col: u8, block: u8) -> u8
        requires col { col < self.now.n }
        requires block { block < self.now.k }
        ensures { result ≡ gamma self.now.k col block }
    {
        self.rows.code().row(col)[block as usize]
    }

    /// Brings the bytes that the code gives a column for these bytes of the whole segment.
    pub fn encode(&self, col: u8, segment: &[u8], into: &mut [u8])
        requires col { col < self.now.n }
        requires segment { length segment.now ≡ segment_length self.now }
        requires bytes { AreBytes segment.now }
        requires room { length into.old ≡ self.now.block }
        ensures { into.new ≡ column self.now.k self.now.block col segment.now }
    {
        encode(&self.shape, self.rows.code(), col, segment, into)
    }
}

/// The same, apart from a bench.
pub(crate) fn encode(g: &Geometry, code: Code, col: u8, segment: &[u8], into: &mut [u8])
    requires most { code.n ≡ g.now.n }
    requires least { code.k ≡ g.now.k }
    requires col { col < g.now.n }
    requires segment { length segment.now ≡ segment_length g.now }
    requires bytes { AreBytes segment.now }
    requires room { length into.old ≡ g.now.block }
    ensures { into.new ≡ column g.now.k g.now.block col segment.now }
{
    let row = code.row(col);
    let data = g.k() as usize;
    let block = g.block() as usize;
    let mut sources = [&segment[..0]; 16];
    for j in 0..data {
        sources[j] = &segment[j * block..j * block + block];
    }
    set_all_scaled(into, &row[..data], &sources[..data]);
}
