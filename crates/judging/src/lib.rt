// Cases are judged: loaded from their lines and moved by a plan.
#![tactic(auto)]

pub mod batch;
mod judge;
mod lines;
mod ready;
