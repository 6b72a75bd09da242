//! Reads what the clients of a run are to do, from a text, line by line.
#![tactic(auto)]

mod fields;
mod kinds;
mod laws;
mod names;
mod reader;
mod reading;
mod refusal;
mod room;
mod said;
mod weight;

pub use cod_script::{Line, Name, Scenario, What};
pub use fields::{data, known, new_name, number};
pub use laws::text_is_scenario;
pub use names::Names;
pub use reader::Reader;
pub use reading::read;
pub use refusal::{LineError, Refusal, ScenarioError};
pub use said::{Header, Keyword, Said, Turns, Verb};
