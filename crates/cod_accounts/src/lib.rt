//! What callers know together that share segments by turns: laws over plain data, from one hold of a segment to the history of all.
#![tactic(auto)]

mod closing;
mod working;

pub use closing::{
    client_fulfils, entries_are_caused, joined_board_closes, joined_seats_close,
    others_owe_nothing, worked_is_closed, worked_is_history, worker_fulfils,
};
pub use working::{call_is_line, call_leaves_ready, kill_is_line, meeting_keeps, new_has_worked};
