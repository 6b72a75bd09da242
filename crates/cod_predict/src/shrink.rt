//! The size that follows from an average.
ghost use Rattle.std.specs.Prelude.{◌≡◌, ◌≤◌};
ghost use Rattle.cod_types.specs.Limits.{floor};
ghost use Rattle.cod_predict.specs.Average.{target_size};

use cod_types::Geometry;

/// The bytes of reserved space after a tick that found `size` bytes and leaves the average `avg`, in ten-thousandths: the
/// unused part of the size is cut off in whole units, but the floor stays.
pub fn target(g: &Geometry, size: u32, avg: u32) -> u32
    requires floor { floor g.now ≤ size }
    requires average { avg ≤ 10000 }
    ensures value { result ≡ target_size g.now size avg }
    ensures least { floor g.now ≤ result }
    ensures most { result ≤ size }
{
    let _columns = g.k(); // a geometry's unit isn't 0: its limits are told here
    let unit = g.unit() as u64;
    let unused = (10_000 - avg) as u64 * size as u64 / 10_000;
    let cut = unused / unit * unit;
    (size - cut as u32).max(g.floor())
}
