//! All that the program does, over any source, sink and shelf of regions.
#![tactic(auto)]

mod checking;
mod coding;
mod command;
mod ending;
mod planning;
mod running;
mod serving;
mod streams;
mod top;

pub use cod_shell::{BAD_WORDS, DONE, NO_MEMORY, REFUSED, SINK_FAILED, SOURCE_FAILED};
pub use streams::over;
pub use top::tool;
