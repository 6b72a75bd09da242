//! Tests of segments over regions that fail. What is words in and text out over regions that don't stands in `cases/`.
#![tactic(auto)]

#[cfg(test)]
mod tests;
