//! Which call may update which block.
ghost use Rattle.std.specs.Prelude.{◌≡◌, ◌↔◌, ◌<◌, IsTrue, ℕ, List, length, slice_index, None, Some, true, false, MatchOption, IfNone, IfSome, IsSome, All};
ghost use Rattle.cod_types.specs.Overwritten.{byte_at, byte_of};
ghost use Rattle.cod_claims.specs.Changes.{LiesInside};
ghost use Rattle.cod_claims.specs.Slips.{changes_of};
ghost use Rattle.cod_claims.specs.Claimed.{AreClaims, HasNone, brought_by, claim_at, claim_of, delta_of, first_holder, holder, kept_of};
ghost use Rattle.cod_claims.specs.Claimed.{applied, forgotten, is_applied, is_noted, is_of, is_others, is_wanted, noted, noted_length, released};
ghost use Rattle.cod_claims.specs.Claimed.{unclaimed, with_applied, with_claims, with_note, without_claims, without_marks};

use crate::Slip;
use crate::claim::Claim;
use crate::delta::Delta;
use cod_types::Caller;
use std::marker::Model;

/// Whose claim it is, and which of the owner's calls it is for.
#[derive(Clone, Copy, Debug, PartialEq, Eq)]
pub struct Held {
    pub owner: Caller,
    pub number: u32,
}

/// The claims of a segment's blocks, at most one for each. They take no memory but the deltas that are moved in.
#[derive(Drop)]
pub struct Claims {
    slots: [Option<Claim>; 16],
}

impl Model for Claims {
    ghost use Rattle.std.specs.Prelude.{List, Option};
    ghost use Rattle.cod_claims.specs.declared.claim.Claim.{Claim};
    ghost use Rattle.cod_claims.specs.Claimed.{AreClaims};

    ghost Value = { List (Option Claim) };

    ghost view = { λ c. c.slots };

    ghost invariant = { λ c. AreClaims c.slots };
}

impl Claims {
    /// No block is claimed.
    pub fn new() -> Claims
        ensures { result ≡ unclaimed }
    {
        Claims {
            slots: [
                None, None, None, None, None, None, None, None, None, None, None, None, None, None,
                None, None,
            ],
        }
    }

    /// The claim of the lowest block that another caller has, among the wanted ones: bit j is for block j. None exactly
    /// where no wanted block is another's.
    pub fn who(&self, wanted: u16, caller: Caller) -> Option<Held>
        ensures first { result ≡ first_holder wanted caller.0 self.now }
        ensures claims { AreClaims self.now }
    {
        let _ = &self.slots;
        for block in 0..16u8 {
            if is_wanted(wanted, block) {
                if let Some(held) = self.other(block, caller) {
                    return Some(held);
                }
            }
        }
        None
    }

    /// Whether the block has a claim.
    pub fn is_claimed(&self, block: u8) -> bool
        ensures { IsTrue result ↔ IsSome (claim_at self.now block) }
    {
        self.claim_at(block).is_some()
    }

    /// Whether the block is the caller's.
    pub fn is_of(&self, block: u8, caller: Caller) -> bool
        ensures { result ≡ is_of caller.0 (claim_at self.now block) }
    {
        match self.claim_at(block) {
            Some(claim) => claim.owner.0 == caller.0,
            None => false,
        }
    }

    /// Claims the blocks of a call's parts, with the deltas that its slip has made.
    pub fn claim(&mut self, caller: Caller, number: u32, slip: &mut Slip)
        requires call { IsSome slip.old.call }
        requires changes { IsSome slip.old.changes }
        requires made { slip.old.are_made ≡ true }
        requires none { HasNone caller.0 self.old }
        requires free { All (λ change. claim_at self.old change.part.block ≡ None) (changes_of slip.old) }
        ensures claims { self.new ≡ with_claims caller number (changes_of slip.old) self.old }
        ensures slip { slip.new ≡ record slip.old { changes = None } }
    {
        let deltas = slip.take_deltas();
        claim_each(&mut self.slots, caller, number, deltas);
    }

    /// The place in the block of its claim's delta, and the delta. None exactly where the block has no claim.
    pub fn delta(&self, block: u8) -> Option<(u32, &[u8])>
        ensures delta { MatchOption result (delta_of (claim_at self.now block) ≡ None) (λ d. delta_of (claim_at self.now block) ≡ Some (d.0, d.1.now)) }
        ensures bytes { IfSome result (λ d. (i : ℕ) → slice_index d.1.now i < 256) }
    {
        let claim = self.claim_at(block)?;
        Some((claim.delta.part().off, claim.delta.bytes()))
    }

    /// The new bytes that its claim's call brings to its part of the block. None exactly where the block has no claim.
    pub fn brings(&self, block: u8) -> Option<&[u8]>
        ensures new { MatchOption result (brought_by (claim_at self.now block) ≡ None) (λ b. brought_by (claim_at self.now block) ≡ Some b.now) }
        ensures bytes { IfSome result (λ b. (i : ℕ) → slice_index b.now i < 256) }
    {
        let claim = self.claim_at(block)?;
        Some(claim.delta.brings())
    }

    /// The place in the block of its claim's delta, and the delta, where it was applied in place. None exactly where the
    /// block has no claim, or one that wasn't applied.
    pub fn kept(&self, block: u8) -> Option<(u32, &[u8])>
        ensures kept { MatchOption result (kept_of (claim_at self.now block) ≡ None) (λ d. kept_of (claim_at self.now block) ≡ Some (d.0, d.1.now)) }
        ensures bytes { IfSome result (λ d. (i : ℕ) → slice_index d.1.now i < 256) }
        ensures none { IfNone result ((x : ℕ) → byte_of (kept_of (claim_at self.now block)) x ≡ 0) }
        ensures some { IfSome result (λ d. (x : ℕ) → byte_of (kept_of (claim_at self.now block)) x ≡ byte_at x 0 d.0 d.1.now) }
    {
        let claim = self.claim_at(block)?;
        if claim.applied {
            Some((claim.delta.part().off, claim.delta.bytes()))
        } else {
            None
        }
    }

    /// Whether the block has a claim whose delta was applied in place.
    pub fn is_applied(&self, block: u8) -> bool
        ensures { result ≡ is_applied (claim_at self.now block) }
    {
        match self.claim_at(block) {
            Some(claim) => claim.applied,
            None => false,
        }
    }

    /// Whether the block has a claim of which the column has a record.
    pub fn is_noted(&self, block: u8, col: u8) -> bool
        requires { col < 16 }
        ensures { result ≡ is_noted col (claim_at self.now block) }
    {
        self.noted_length(block, col).is_some()
    }

    /// How long the column's record of the block's delta is, where the column has one.
    pub fn noted_length(&self, block: u8, col: u8) -> Option<u32>
        requires { col < 16 }
        ensures { result ≡ noted_length col (claim_at self.now block) }
    {
        match self.claim_at(block) {
            Some(claim) => claim.noted[col as usize],
            None => None,
        }
    }

    /// The block's delta was applied in place.
    pub fn mark_applied(&mut self, block: u8)
        requires { IsSome (claim_at self.old block) }
        ensures { self.new ≡ with_applied block self.old }
    {
        apply_one(&mut self.slots[block as usize]);
    }

    /// The column has a record of the block's delta, `len` bytes long.
    pub fn note(&mut self, block: u8, col: u8, len: u32)
        requires block { IsSome (claim_at self.old block) }
        requires col { col < 16 }
        ensures { self.new ≡ with_note block col len self.old }
    {
        note_one(&mut self.slots[block as usize], col, len);
    }

    /// Ends all marks on a column: that it has a record, and for a data column that its block's delta was applied.
    pub fn forget(&mut self, col: u8)
        requires { col < 16 }
        ensures { self.new ≡ without_marks col self.old }
    {
        forget_each(&mut self.slots, col);
    }

    /// Ends the caller's claims, and no other.
    pub fn release(&mut self, caller: Caller)
        ensures { self.new ≡ without_claims caller.0 self.old }
    {
        release_each(&mut self.slots, caller);
    }

    /// The holder of the block where that is another caller.
    fn other(&self, block: u8, caller: Caller) -> Option<Held>
        ensures none { IfNone result (is_others caller.0 (claim_at self.now block) ≡ false) }
        ensures some { IfSome result (λ h. (is_others caller.0 (claim_at self.now block) ≡ true) × (holder (claim_at self.now block) ≡ Some h)) }
    {
        let claim = self.claim_at(block)?;
        if claim.owner.0 == caller.0 {
            return None;
        }
        Some(Held {
            owner: claim.owner,
            number: claim.number,
        })
    }

    fn claim_at(&self, block: u8) -> Option<&Claim>
        ensures at { MatchOption result (claim_at self.now block ≡ None) (λ c. claim_at self.now block ≡ Some c.now) }
        ensures inside { IfSome result (λ c. LiesInside c.now.delta) }
    {
        if block < 16 {
            self.slots[block as usize].as_ref()
        } else {
            None
        }
    }
}

/// Whether a block is among the wanted ones.
fn is_wanted(wanted: u16, block: u8) -> bool
    requires { block < 16 }
    ensures { result ≡ is_wanted wanted block }
{
    wanted >> block & 1 == 1
}

/// Claims the block of each delta.
fn claim_each(slots: &mut [Option<Claim>], caller: Caller, number: u32, deltas: Vec<Delta>)
    requires { All (λ change. change.part.block < length slots.old) deltas.items }
    ensures { slots.new ≡ with_claims caller number deltas.items slots.old }
{
    for delta in deltas {
        let block = delta.part().block;
        claim_one(&mut slots[block as usize], caller, number, delta);
    }
}

fn claim_one(slot: &mut Option<Claim>, caller: Caller, number: u32, delta: Delta)
    ensures { slot.new ≡ Some (claim_of caller number delta) }
{
    *slot = Some(Claim {
        owner: caller,
        number,
        delta,
        applied: false,
        noted: [None; 16],
    });
}

fn apply_one(slot: &mut Option<Claim>)
    ensures { slot.new ≡ applied slot.old }
{
    if let Some(claim) = slot {
        claim.applied = true;
    }
}

fn note_one(slot: &mut Option<Claim>, col: u8, len: u32)
    requires { col < 16 }
    ensures { slot.new ≡ noted col len slot.old }
{
    if let Some(claim) = slot {
        claim.noted[col as usize] = Some(len);
    }
}

fn forget_each(slots: &mut [Option<Claim>], col: u8)
    requires { col < 16 }
    ensures { slots.new ≡ without_marks col slots.old }
{
    for slot in slots.iter_mut() {
        forget_one(slot, col);
    }
}

fn forget_one(slot: &mut Option<Claim>, col: u8)
    requires { col < 16 }
    ensures { slot.new ≡ forgotten col slot.old }
{
    if let Some(claim) = slot {
        claim.noted[col as usize] = None;
        if claim.delta.part().block == col {
            claim.applied = false;
        }
    }
}

fn release_each(slots: &mut [Option<Claim>], caller: Caller)
    ensures { slots.new ≡ without_claims caller.0 slots.old }
{
    for slot in slots.iter_mut() {
        release_one(slot, caller);
    }
}

fn release_one(slot: &mut Option<Claim>, caller: Caller)
    ensures { slot.new ≡ released caller.0 slot.old }
{
    let owned = match &*slot {
        Some(claim) => claim.owner.0 == caller.0,
        None => false,
    };
    if owned {
        *slot = None;
    }
}
