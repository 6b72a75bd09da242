//! Tests of `cod_tool` with sources, sinks and regions that fail, and with a text that is too long. What is words in and text
//! out stands in `cases/`.
#![tactic(auto)]

#[cfg(test)]
mod tests;
