//! Tests of `cod_repair`: that there is memory for a bench and for columns. They stand here so that `cod_repair` is proved once.
#![tactic(auto)]

#[cfg(test)]
mod tests;
