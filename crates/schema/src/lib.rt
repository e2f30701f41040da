// Schemas that passed the checks.
#![tactic(auto)]

mod bad_element;
mod distinct;
mod rows;
pub mod schema;
pub mod space;
