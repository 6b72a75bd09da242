//! Laws of one event, each the contract of a function that does nothing.
ghost use Rattle.std.specs.Prelude.{◌≡◌, ◌≢◌, ℕ};
ghost use Rattle.cod_chronicle.specs.Adding.{AddsArrival, AddsCall, AddsMark, AddsNothing, FollowsNext, KeepsChronicle, KeepsLegal, KeepsSwept, NextIsAfter};
ghost use Rattle.cod_chronicle.specs.Growing.{GrownIsEvent, GrowsByArrival, GrowsByCall, GrowsByMark, GrowsNot};
ghost use Rattle.cod_chronicle.specs.Said.{calls_by};
ghost use Rattle.cod_chronicle.specs.Standing.{Follows};
ghost use Rattle.cod_chronicle.specs.Step.{AnsweredEndsWithCall, EventsRise, LeavesOthersCalls, MarksStandAfter, StepLeadsOn, UnansweredAreMarks};
ghost use Rattle.cod_chronicle.specs.Sweep.{ProceedsIsEvent, SweepsOneWay};

use crate::Stands;

/// The next stamp may stand behind all entries.
#[tactic(auto, using(crate::proofs::Adding::follows_next))]
pub fn follows_next()
    ensures { FollowsNext }
{}

/// The next stamp is greater than both clocks, below the greatest stamp.
#[tactic(auto, using(crate::proofs::Adding::next_is_after))]
pub fn next_is_after()
    ensures { NextIsAfter }
{}

/// An event begins with nothing.
pub fn adds_nothing()
    ensures { AddsNothing }
{}

/// It may mark a column down.
pub fn adds_mark()
    ensures { AddsMark }
{}

/// It may answer the call.
pub fn adds_call()
    ensures { AddsCall }
{}

/// It may bring a column to a node and answer the call.
pub fn adds_arrival()
    ensures { AddsArrival }
{}

/// A chronicle with what an event adds is a chronicle.
#[tactic(auto, using(crate::proofs::Adding::keeps_chronicle))]
pub fn keeps_chronicle()
    ensures { KeepsChronicle }
{}

/// A legal chronicle with what an event adds is legal.
#[tactic(auto, using(crate::proofs::Adding::keeps_legal))]
pub fn keeps_legal()
    ensures { KeepsLegal }
{}

/// What was swept stays swept with one entry more, where no column comes to a killed node.
#[tactic(auto, using(crate::proofs::Adding::keeps_swept))]
pub fn keeps_swept()
    ensures { KeepsSwept }
{}

/// What an event adds in time, first by its sweep, is what an event adds.
pub fn proceeds_is_event()
    ensures { ProceedsIsEvent }
{}

/// Over a board that nobody else changes, a sweep has one outcome.
pub fn sweeps_one_way()
    ensures { SweepsOneWay }
{}

/// An event that answers ends with its call, whose stamp is its caller's clock afterwards.
pub fn answered_ends_with_call()
    ensures { AnsweredEndsWithCall }
{}

/// An event that doesn't answer adds marks alone.
pub fn unanswered_are_marks()
    ensures { UnansweredAreMarks }
{}

/// The caller's clock never falls, and rises with an answer.
pub fn events_rise()
    ensures { EventsRise }
{}

/// One event adds entries behind those that were there; its calls are its caller's, and what was legal stays so.
pub fn step_leads_on()
    ensures { StepLeadsOn }
{}

/// A mark of a killed node has a greater stamp than the kill's clock.
pub fn marks_stand_after()
    ensures { MarksStandAfter }
{}

/// An event begins with nothing.
pub fn grows_not()
    ensures { GrowsNot }
{}

/// It may go on with a mark.
pub fn grows_by_mark()
    ensures { GrowsByMark }
{}

/// It may end with its call.
pub fn grows_by_call()
    ensures { GrowsByCall }
{}

/// It may end with a column that comes to a node, and its call.
pub fn grows_by_arrival()
    ensures { GrowsByArrival }
{}

/// What has grown is one event.
pub fn grown_is_event()
    ensures { GrownIsEvent }
{}

/// Entries with no call but one caller's leave the calls of each other one.
pub fn leaves_others_calls()
    ensures { LeavesOthersCalls }
{}

/// A value that follows another by one event of a caller has the same calls of each other caller.
pub fn follower_keeps_others<T: Stands>()
    ensures { (caller other : ℕ) (old new : T) → Follows T.name T.entries T.gauge T.open_calls T.event caller old new
        → other ≢ caller → calls_by other (T.entries new) ≡ calls_by other (T.entries old) }
{}
