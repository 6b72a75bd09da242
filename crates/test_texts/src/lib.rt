//! Tests of scenarios and of printed texts: limits of size, sinks that fail, and entries that no scenario brings about yet. What
//! can be said by words in and text out stands in `cases/`.
#![tactic(auto)]

#[cfg(test)]
mod printed;
#[cfg(test)]
mod scenarios;
