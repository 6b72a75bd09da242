//! What the steps of one request's event add to the chronicle, and what they leave open. These functions do nothing: their clauses
//! are laws.
ghost use Rattle.cod_seg.specs.Happens.{AnswerEnds, BeginOpens, EventGrows, EventKeepsOpen, OthersKeepOpen, StepGrows};

/// Step by step an event adds to the chronicle what an event adds, each entry with its exact stamp.
pub fn step_grows()
    ensures { StepGrows }
{}

/// What other callers have open stays.
pub fn others_keep_open()
    ensures { OthersKeepOpen }
{}

/// A caller whose call was answered has nothing open.
pub fn answer_ends()
    ensures { AnswerEnds }
{}

/// A caller that began an update has it open.
pub fn begin_opens()
    ensures { BeginOpens }
{}

/// Steps that are of one event add to the chronicle what an event adds.
pub fn event_grows()
    ensures { EventGrows }
{}

/// They leave what other callers have open.
pub fn event_keeps_open()
    ensures { EventKeepsOpen }
{}
