//! What each step of an event keeps. These functions do nothing: their clauses are laws.
ghost use Rattle.cod_seg.specs.Pools.{OwnerKeeps};
ghost use Rattle.cod_seg.specs.Runs.{GoesOn, ReadsArePlain, RunsOn, RunsStart};
ghost use Rattle.cod_seg.specs.Laws.{AddsToData, AimKeeps, AnswerKeeps, ApplyKeeps, BeginKeeps, ColumnsAreBlocks, CommitKeeps, EnoughAreUp, FillKeeps};
ghost use Rattle.cod_seg.specs.Laws.{FloorHasRoom, GoingGrows, GoingKeeps, HaveValues, LossKeeps, MarkKeeps, MoveKeeps, NewIsSound, NoteHasRoom, NoteKeeps};
ghost use Rattle.cod_seg.specs.Laws.{PutKeeps, RiseKeeps, SpoilKeeps, WorkKeeps};

/// An update's begin keeps a segment sound.
pub fn begin_keeps()
    ensures { BeginKeeps }
{}

/// So does an update that is applied in one of its blocks.
pub fn apply_keeps()
    ensures { ApplyKeeps }
{}

/// So does an update that is noted on a parity column.
pub fn note_keeps()
    ensures { NoteKeeps }
{}

/// So does a commit, also while a rebuild is in progress whose target it corrects.
pub fn commit_keeps()
    ensures { CommitKeeps }
{}

/// So does a put.
pub fn put_keeps()
    ensures { PutKeeps }
{}

/// So does a put that finds too many columns down.
pub fn spoil_keeps()
    ensures { SpoilKeeps }
{}

/// So does the answer of a call that changes no byte.
pub fn answer_keeps()
    ensures { AnswerKeeps }
{}

/// So does a call that is lost, whose claims end.
pub fn loss_keeps()
    ensures { LossKeeps }
{}

/// So does the mark of a column that goes down, whatever a failed call has left of it.
pub fn mark_keeps()
    ensures { MarkKeeps }
{}

/// So does each read, merge or tick of a column.
pub fn work_keeps()
    ensures { WorkKeeps }
{}

/// So does a rebuild that begins, takes another target or lets go of the one it has, or ends in vain.
pub fn aim_keeps()
    ensures { AimKeeps }
{}

/// So does a piece that is written on the target.
pub fn fill_keeps()
    ensures { FillKeeps }
{}

/// So does the end of a rebuild, with which its column is up again.
pub fn rise_keeps()
    ensures { RiseKeeps }
{}

/// So does the move of a live column to another node.
pub fn move_keeps()
    ensures { MoveKeeps }
{}

/// A segment whose rooms all get badges of shared pools, or give them back, stays sound.
pub fn owner_keeps()
    ensures { OwnerKeeps }
{}

/// Any number of steps keep a segment sound.
pub fn going_keeps()
    ensures { GoingKeeps }
{}

/// What is in flight on a parity column fits in the floor of its reserved space.
pub fn floor_has_room()
    ensures { FloorHasRoom }
{}

/// And one record more does, of a claim that the column hasn't noted. So an append never finds the column full.
pub fn note_has_room()
    ensures { NoteHasRoom }
{}

/// A caller's claims change a data column by its claim of that block alone. So of a data column's target only that part is corrected.
pub fn adds_to_data()
    ensures { AddsToData }
{}

/// A segment that was just built is sound.
pub fn new_is_sound()
    ensures { NewIsSound }
{}

/// Any number of steps add entries to the chronicle and leave those that are there.
pub fn going_grows()
    ensures { GoingGrows }
{}

/// A data column is its block of the segment's bytes. So a read of the blocks' values is a read of the bytes.
pub fn columns_are_blocks()
    ensures { ColumnsAreBlocks }
{}

/// Where a segment isn't lost, enough columns are up to decode any other.
pub fn enough_are_up()
    ensures { EnoughAreUp }
{}

/// Each column that is up has at the cut the value that the code gives it.
pub fn have_values()
    ensures { HaveValues }
{}

/// Steps go on from steps.
pub fn goes_on()
    ensures { GoesOn }
{}

/// A round over the columns begins with nothing done.
pub fn runs_start()
    ensures { RunsStart }
{}

/// It goes on with one column more, which is passed by, worked on or marked down.
pub fn runs_on()
    ensures { RunsOn }
{}

/// Each read that was answered with bytes has the bytes of a plain segment after the calls before it: however updates, merges,
/// failures and rebuilds stood between each other.
pub fn reads_are_plain()
    ensures { ReadsArePlain }
{}
