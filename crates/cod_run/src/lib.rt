//! All that the program with threads does, over any source, sink and shelf of regions.
#![tactic(auto)]

mod command;
mod ending;
mod job;
mod serving;
mod streams;
mod threads;
mod top;
mod waiting;

pub use cod_cluster::{Gate, NoGate, Point};
pub use cod_shell::{BAD_WORDS, DONE, NO_MEMORY, REFUSED, SINK_FAILED, SOURCE_FAILED};
pub use streams::over;
pub use top::run;
