// A case of a schema, over any store and any worklist.
use entering::course::Course;
use history::Store;
use worklist::Worklist;

pub mod moves;
pub mod openings;
pub mod questions;
pub mod steps;

// Its course, what it offers, and its number. Tried with an `impl Model` that gives its view: a model's value holds no
// function, and what is offered is one.
#[derive(Drop)]
pub struct Case<'s, S: Store, W: Worklist> {
    course: Course<'s, S>,
    worklist: W,
    number: u32,
}
