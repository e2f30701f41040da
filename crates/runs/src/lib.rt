// Steps of a case, and the run of a history.
#![tactic(auto)]

pub mod histories;
pub mod steps;
