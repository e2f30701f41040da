// Drafts of plans, which admit changes one by one, and released plans.
#![tactic(auto)]

mod carrying;
mod copying;
pub mod draft;
mod judging;
pub mod plan;
#[cfg(test)]
mod tests;
