// Rounds of loops.
#![tactic(auto)]

pub mod laws;
pub mod nodes;
#[cfg(test)]
mod tests;
