//! A region that doesn't tell what it holds.
ghost use Rattle.std.specs.Prelude.{◌≡◌, None, false, refl};
ghost use Rattle.std.proofs.lemmas.Option.{none-some};

use crate::Region;
use cod_types::Failed;

/// A region of which it isn't told what it holds, like one on a real device. Of what stands there nothing has to be known.
#[derive(Drop)]
pub struct Untold<R: Region> {
    held: R,
}

impl<R: Region> Untold<R> {
    /// This region, from now on untold.
    pub fn new(held: R) -> Untold<R>
        ensures { result.held ≡ held }
    {
        Untold { held }
    }

    /// The region that does tell.
    pub fn held(&self) -> &R
        ensures { result.now ≡ self.now.held }
    {
        &self.held
    }
}

impl<R: Region> Region for Untold<R> {
    ghost device = { λ r. record (R.device r.held) { content = None } };

    ghost tells = { false };

    ghost whole = { λ r held is. absurd (none-some held is) };

    ghost telling = { λ r. refl };

    ghost reliable = { λ r sure. R.reliable r.held sure };

    fn len(&self) -> u32 {
        self.held.len()
    }

    fn reads(&self) -> u64 {
        self.held.reads()
    }

    fn writes(&self) -> u64 {
        self.held.writes()
    }

    fn faults(&self) -> u64 {
        self.held.faults()
    }

    fn read_at(&mut self, off: u32, into: &mut [u8]) -> Result<(), Failed> {
        self.held.read_at(off, into)
    }

    fn fetch(&mut self, off: u32, len: usize) -> Result<(), Failed> {
        self.held.fetch(off, len)
    }

    fn lent(&self, off: u32, len: usize) -> &[u8] {
        self.held.lent(off, len)
    }

    fn write_at(&mut self, off: u32, from: &[u8]) -> Result<(), Failed> {
        self.held.write_at(off, from)
    }

    fn cut(&mut self, len: u32) -> Result<(), Failed> {
        self.held.cut(len)
    }
}
