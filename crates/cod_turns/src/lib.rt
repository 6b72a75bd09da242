//! The turns of a run, and what whole runs leave.
#![tactic(auto)]

mod closed;
mod losses;
mod machine;
mod open;
mod rounds;
mod runs;
mod texts;
mod turned;

pub use closed::closed_is_history;
pub use losses::{few_fails_lose_nothing, lost_exactly, never_lost, no_faults_where_none_may};
pub use machine::{Machine, one_round, run, scheduled_turns};
pub use open::{
    ends_with_nothing_open, open_is_of_its_line, run_leaves_nothing_open, start_is_of_its_lines,
    turn_tells_of_line,
};
pub use rounds::{
    going_on_is_less, rounds_fall, run_leaves_history, total_falls, total_has_bound,
    turns_never_raise, work_has_bound,
};
pub use runs::{fails_are_kills, lines_are_apart, runs_are_histories, runs_are_small};
pub use texts::{text_runs_are_histories, text_runs_are_small};
pub use turned::Turned;
