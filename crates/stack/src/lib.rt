// A stack of at most 128 values: one for each element of a row at most.
#![tactic(auto)]

ghost use Rattle.std.specs.Prelude.{◌≡◌, ◌≤◌, List, [], reverse, length, take};
ghost use Rattle.stack.specs.Items.{head, tail, pushed};

mod moves;

pub use moves::Move;
use std::marker::Model;

// An array, since marking stacks blocks in every step and steps take no memory. Not an `ArrayVec`: making one
// asks a `Default` of the values, and a block has none.
#[derive(Drop)]
pub struct Stack<T> {
    depth: usize,
    places: [T; 128],
}

// Its values, the last pushed first.
impl<T> Model for Stack<T> {
    ghost Value = { List T };

    ghost view = { λ s. reverse (take s.depth s.places) };

    ghost invariant = { λ s. (s.depth ≤ 128) × (length s.places ≡ 128) };
}

impl<T: Copy> Stack<T> {
    // An empty stack; `fill` stands in its unused places.
    pub fn new(fill: T) -> Stack<T>
        ensures { result ≡ [] }
    {
        Stack {
            depth: 0,
            places: [fill; 128],
        }
    }

    // The value that was pushed last.
    pub fn top(&self) -> Option<T>
        ensures value { result ≡ head self.now }
        ensures few { length self.now ≤ 128 }
    {
        self.places[..self.depth].last().copied()
    }

    // Puts a value on top; a full stack stays as it is.
    pub fn push(&mut self, value: T)
        ensures { self.new ≡ pushed value self.old }
    {
        if self.depth < 128 {
            self.places[self.depth] = value;
            self.depth += 1;
        }
    }

    // Takes the value on top away, if there is one.
    pub fn pop(&mut self)
        ensures { self.new ≡ tail self.old }
    {
        self.depth = self.depth.saturating_sub(1);
    }
}
