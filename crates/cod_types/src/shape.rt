//! The numbers of a code and its blocks, within their limits.
ghost use Rattle.std.specs.Prelude.{◌≡◌, ◌+◌, ◌*◌, ◌≤◌, ◌^◌, ◌<◌, None, Some, IfOk, IfErr};
ghost use Rattle.cod_types.specs.Columns.{column_size};
ghost use Rattle.cod_types.specs.Limits.{first_bad, floor, segment_length, shape, record_overhead, IsWithin};

use crate::{BadGeometry, Field};
use std::alloc::AllocError;
use std::marker::Model;

/// A segment's numbers: `n` columns of which `k` hold data, blocks of `block` bytes, updates of at most `update` bytes,
/// `reserve` bytes of reserved space beside each parity block, which shrinks in steps of `unit` bytes by a moving average
/// whose weight is `alpha` ten-thousandths; and the version of its records, 1 or 2. All are within their limits.
pub struct Geometry {
    version: u8,
    n: u8,
    k: u8,
    block: u32,
    update: u32,
    reserve: u32,
    unit: u32,
    alpha: u32,
}

impl Clone for Geometry {
    ghost use Rattle.std.specs.Prelude.{◌≡◌, Ok};

    ghost is_clone = { λ g h. h ≡ g };

    fn clone(&self) -> Result<Self, AllocError>
        ensures { result ≡ Ok self.now }
    {
        Ok(*self)
    }
}

impl Copy for Geometry {}

impl Model for Geometry {
    ghost use Rattle.cod_types.specs.Limits.{Shape, shape, IsWithin};

    ghost Value = { Shape };

    ghost view = { λ g. shape g.version g.n g.k g.block g.update g.reserve g.unit g.alpha };

    ghost invariant = { λ g. IsWithin (shape g.version g.n g.k g.block g.update g.reserve g.unit g.alpha) };

    ghost inverse = { λ g. record {
      version = g.version;
      n = g.n;
      k = g.k;
      block = g.block;
      update = g.update;
      reserve = g.reserve;
      unit = g.unit;
      alpha = g.alpha;
    } };
}

impl Geometry {
    /// A geometry whose records are of version 1. It is refused exactly where a field is outside its limits, by the first
    /// such field: n 1 to 16; k 1 to n; block 1 to 1048576; update 1 to the lesser of k·block and 65536; reserve from the floor,
    /// k·(19 + update), to 4194304; unit 1 to reserve; alpha 0 to 10000.
    pub fn new(
        n: u8,
        k: u8,
        block: u32,
        update: u32,
        reserve: u32,
        unit: u32,
        alpha: u32,
    ) -> Result<Geometry, BadGeometry>
        ensures within { IfOk result (λ g. (g ≡ shape 1 n k block update reserve unit alpha) × (first_bad g ≡ None)) }
        ensures outside { IfErr result (λ e. first_bad (shape 1 n k block update reserve unit alpha) ≡ Some e.0) }
    {
        Geometry::build(1, n, k, block, update, reserve, unit, alpha)
    }

    /// A geometry whose segments may come to write records of version 2. It is refused as `new` refuses, with the floor
    /// k·(21 + update).
    pub fn new2(
        n: u8,
        k: u8,
        block: u32,
        update: u32,
        reserve: u32,
        unit: u32,
        alpha: u32,
    ) -> Result<Geometry, BadGeometry>
        ensures within { IfOk result (λ g. (g ≡ shape 2 n k block update reserve unit alpha) × (first_bad g ≡ None)) }
        ensures outside { IfErr result (λ e. first_bad (shape 2 n k block update reserve unit alpha) ≡ Some e.0) }
    {
        Geometry::build(2, n, k, block, update, reserve, unit, alpha)
    }

    fn build(
        version: u8,
        n: u8,
        k: u8,
        block: u32,
        update: u32,
        reserve: u32,
        unit: u32,
        alpha: u32,
    ) -> Result<Geometry, BadGeometry>
        requires first { 1 ≤ version }
        requires last { version ≤ 2 }
        ensures within { IfOk result (λ g. (g ≡ shape version n k block update reserve unit alpha) × (first_bad g ≡ None)) }
        ensures outside { IfErr result (λ e. first_bad (shape version n k block update reserve unit alpha) ≡ Some e.0) }
    {
        if n < 1 || 16 < n {
            return Err(BadGeometry(Field::N));
        }
        if k < 1 || n < k {
            return Err(BadGeometry(Field::K));
        }
        if block < 1 || 1_048_576 < block {
            return Err(BadGeometry(Field::Block));
        }
        if update < 1 || k as u32 * block < update || 65_536 < update {
            return Err(BadGeometry(Field::Update));
        }
        if reserve < k as u32 * (overhead(version) + update) || 4_194_304 < reserve {
            return Err(BadGeometry(Field::Reserve));
        }
        if unit < 1 || reserve < unit {
            return Err(BadGeometry(Field::Unit));
        }
        if 10_000 < alpha {
            return Err(BadGeometry(Field::Alpha));
        }
        Ok(Geometry {
            version,
            n,
            k,
            block,
            update,
            reserve,
            unit,
            alpha,
        })
    }

    /// The version of the records that a segment may come to write: 1 or 2.
    pub fn version(&self) -> u8
        ensures { result ≡ self.now.version }
    {
        self.version
    }

    /// The number of columns, data and parity together.
    pub fn n(&self) -> u8
        ensures { result ≡ self.now.n }
    {
        self.n
    }

    /// The number of data columns.
    pub fn k(&self) -> u8
        ensures value { result ≡ self.now.k }
        ensures within { IsWithin self.now }
    {
        self.k
    }

    /// The bytes of a block.
    pub fn block(&self) -> u32
        ensures { result ≡ self.now.block }
    {
        self.block
    }

    /// The bytes of the longest update.
    pub fn update(&self) -> u32
        ensures { result ≡ self.now.update }
    {
        self.update
    }

    /// The bytes of reserved space beside a parity block, at first.
    pub fn reserve(&self) -> u32
        ensures { result ≡ self.now.reserve }
    {
        self.reserve
    }

    /// The bytes by which reserved space shrinks.
    pub fn unit(&self) -> u32
        ensures { result ≡ self.now.unit }
    {
        self.unit
    }

    /// The weight of the newest use in the moving average, in ten-thousandths.
    pub fn alpha(&self) -> u32
        ensures { result ≡ self.now.alpha }
    {
        self.alpha
    }

    /// The bytes of a segment, at most 2^24.
    pub fn bytes(&self) -> u32
        ensures value { result ≡ segment_length self.now }
        ensures most { result ≤ 2 ^ 24 }
    {
        self.k as u32 * self.block
    }

    /// The bytes of a column: those of a block, and for a parity column its reserved space behind it.
    pub fn column_size(&self, col: u8) -> u32
        ensures value { result ≡ column_size self.now col }
        ensures most { result ≤ 5 * 2 ^ 20 }
    {
        if col < self.k {
            self.block
        } else {
            self.block + self.reserve
        }
    }

    /// The least bytes of reserved space.
    pub fn floor(&self) -> u32
        ensures value { result ≡ floor self.now }
        ensures most { result ≤ self.now.reserve }
    {
        self.k as u32 * (overhead(self.version) + self.update)
    }
}

/// The bytes that a record has beside those of its update, at most.
fn overhead(version: u8) -> u32
    ensures { result ≡ record_overhead version }
{
    if version == 2 { 21 } else { 19 }
}
