//! Tests of whole replays in which one call of a region, of the source or of the sink fails, each in turn. What each event is to
//! print where a chosen call fails stands in `test_stripes`.
#![tactic(auto)]

#[cfg(test)]
mod history;
#[cfg(test)]
mod tests;
