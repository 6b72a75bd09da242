//! How one event of a segment is one turn of a run. There is no program here: the functions do nothing, and their clauses are laws.
#![tactic(auto)]

mod histories;
mod moments;
mod served;
mod work;
mod worlds;

pub use histories::leads_are_turns;
pub use moments::{
    failing_keeps_slips, first_has_slips, first_is_moment, line_is_there, moment_has_room,
    number_is_small, serving_keeps_slips, slip_is_asked, turn_leads_on,
};
pub use served::{event_is_step, event_is_turn, stepped_is_step};
pub use work::{event_is_progress, holding_adds_none, moving_lessens, work_is_bounded};
pub use worlds::{
    all_work_is_bounded, ending_is_turn, failing_is_turn, new_are_segments, serving_is_progress,
    serving_is_turn, serving_keeps, setting_is_segments, start_is_start,
};
