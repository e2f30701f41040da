// What a case is doing, from its facts: the signals of a row's gaps and the states of its nodes.
#![tactic(auto)]

mod dead;
pub mod marking;
pub mod nearby;
mod signals;
pub mod states;
#[cfg(test)]
mod tests;
