// Cases that run.
#![tactic(auto)]

pub mod case;
