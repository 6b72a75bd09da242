//! What every region and every shelf keeps to.
ghost use Rattle.std.specs.Prelude.{◌≡◌, ◌+◌, ◌≤◌, ℕ, List, Bool, true, not, Option, Some, length, take, MatchResult, IfOk, OnOk};
ghost use Rattle.std.specs.Option.{option_map, is_some};
ghost use Rattle.cod_types.specs.Faults.{bump, HasCause};
ghost use Rattle.cod_types.specs.Overwritten.{overwritten};
ghost use Rattle.cod_region.specs.Device.{AllRegions, Device, Reads, Torn, Zeros};

use cod_types::{Failed, NodeId, OutOfMemory};
use std::alloc::Global;

/// A piece of a node's device: bytes that are read, written and cut off at the end. A call that fails is counted among
/// the faults, and also among the reads or writes, as each call is.
pub trait Region: Drop {
    /// All that there is to say of it.
    ghost device: { Self → Device };

    /// Whether regions of this type tell what they hold.
    ghost tells: { Bool };

    /// How many bytes it has.
    fn len(&self) -> u32
        ensures { result ≡ (device self.now).size };

    /// How many calls of `read_at` and of `fetch` there were, up to the end of `u64`.
    fn reads(&self) -> u64
        ensures { result ≡ (device self.now).reads };

    /// How many calls of `write_at` there were, up to the end of `u64`.
    fn writes(&self) -> u64
        ensures { result ≡ (device self.now).writes };

    /// How many calls failed, up to the end of `u64`.
    fn faults(&self) -> u64
        ensures { result ≡ (device self.now).faults };

    /// Brings the bytes from `off` on into `into`, as many as it has. A call that fails may leave any bytes there.
    fn read_at(&mut self, off: u32, into: &mut [u8]) -> Result<(), Failed>
        requires { off + length into.old ≤ (device self.old).size }
        ensures bytes { OnOk result (Reads (device self.old).content off into.new) }
        ensures same { device self.new ≡ record (device self.old) { reads = bump (device self.old).reads; faults = (device self.new).faults } }
        ensures cause { HasCause (device self.old).faults (device self.new).faults result };

    /// Counts a read of so many bytes from `off` on, which `lent` then gives without a copy. It fails as a read does.
    fn fetch(&mut self, off: u32, len: usize) -> Result<(), Failed>
        requires { off + len ≤ (device self.old).size }
        ensures same { device self.new ≡ record (device self.old) { reads = bump (device self.old).reads; faults = (device self.new).faults } }
        ensures cause { HasCause (device self.old).faults (device self.new).faults result };

    /// The bytes from `off` on, as they are held. It is no call of the device: a caller has fetched them.
    fn lent(&self, off: u32, len: usize) -> &[u8]
        requires { off + len ≤ (device self.now).size }
        ensures length { length result.now ≡ len }
        ensures bytes { Reads (device self.now).content off result.now };

    /// Replaces the bytes from `off` on by those of `from`. A call that fails may leave any bytes in their place, and
    /// changes no other.
    fn write_at(&mut self, off: u32, from: &[u8]) -> Result<(), Failed>
        requires { off + length from.now ≤ (device self.old).size }
        ensures content { MatchResult result (λ _. (device self.new).content ≡ option_map (overwritten off from.now) (device self.old).content) (λ _. Torn off
            (length from.now) (device self.old).content (device self.new).content) }
        ensures same { device self.new ≡ record (device self.old) {
          content = (device self.new).content;
          writes = bump (device self.old).writes;
          faults =
              (device self.new).faults;
        } }
        ensures cause { HasCause (device self.old).faults (device self.new).faults result };

    /// Cuts off the bytes from `len` on. A call that fails may leave any length from `len` to the old one; the bytes
    /// before `len` stay. It counts neither as a read nor as a write.
    fn cut(&mut self, len: u32) -> Result<(), Failed>
        requires { len ≤ (device self.old).size }
        ensures size { MatchResult result (λ _. (device self.new).size ≡ len) (λ _. (len ≤ (device self.new).size)
            × ((device self.new).size ≤ (device self.old).size)) }
        ensures content { MatchResult result (λ _. (device self.new).content ≡ option_map (take len) (device self.old).content) (λ _. option_map (take len)
            (device self.new).content ≡ option_map (take len) (device self.old).content) }
        ensures same { device self.new ≡ record (device self.old) {
          size = (device self.new).size;
          content = (device self.new).content;
          faults =
              (device self.new).faults;
        } }
        ensures cause { HasCause (device self.old).faults (device self.new).faults result };

    /// What it holds has its length.
    ghost whole: { (r : Self) (held : List ℕ) → (device r).content ≡ Some held → length held ≡ (device r).size };

    /// Whether it tells what it holds is a fact of its type.
    ghost telling: { (r : Self) → is_some (device r).content ≡ tells };

    /// One that never fails has had no fault. So each call of it is answered `Ok`.
    ghost reliable: { (r : Self) → (device r).never_fails ≡ true → (device r).faults ≡ 0 };
}

/// Where regions come from, node by node.
pub trait Shelf {
    type Region: Region;

    /// What holds of every region that it gives: whether it tells what it holds, and on which nodes it never fails.
    ghost regions: { Self → AllRegions };

    /// A region of `len` zeros on a node, with all counts 0. A broken device gives a region that fails at its first call.
    fn region(&self, alloc: Global, node: NodeId, len: u32) -> Result<Self::Region, OutOfMemory>
        ensures fresh { IfOk result (λ r. Self.Region.device r ≡ record {
          size = len;
          content =
              (Self.Region.device r).content;
          reads = 0;
          writes = 0;
          faults = 0;
          never_fails = (regions self.now).never_fail node;
        }) }
        ensures zeros { IfOk result (λ r. Zeros (Self.Region.device r).content len) };

    /// Whether a region that it gives on a node may fail.
    fn may_fail(&self, node: NodeId) -> bool
        ensures { result ≡ not ((regions self.now).never_fail node) };

    /// They tell what they hold where regions of their type do.
    ghost telling: { (s : Self) → (regions s).tell ≡ Self.Region.tells };
}
