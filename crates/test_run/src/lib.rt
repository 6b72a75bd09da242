//! Tests of `cod_run` with threads: worked runs whose text is known, a run in which the calls of two clients lie one within the
//! other, and many runs of one scenario with every kind of call, each judged by the printed lines alone.
#![tactic(auto)]

#[cfg(test)]
mod history;
#[cfg(test)]
mod meeting;
#[cfg(test)]
mod scenario;
#[cfg(test)]
mod tests;
