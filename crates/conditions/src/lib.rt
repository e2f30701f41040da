// Whether changes may be made under a running case, by looking at the signal of a gap, a few states, and the order of two
// entries.
#![tactic(auto)]

mod deciders;
pub mod failures;
mod gaps;
pub mod hindrances;
pub mod laws;
mod states;
