// The course of a case, and the entries that are entered in its facts and its store. And who is then offered.
#![tactic(auto)]

pub mod course;
pub mod entries;
pub mod offers;
