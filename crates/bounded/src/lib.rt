// Lists that can grow to a limit and no further, and slices, which cannot grow.
#![tactic(auto)]

ghost use Rattle.std.specs.Prelude.{◌≡◌, ◌≤◌, List, [], ◌∷◌, ◌++◌, length, vec_capacity, IfOk, MatchResult};

mod slices;

pub use slices::{get_or, put};
use std::alloc::{AllocError, Global};
use std::error::Error;
use std::fmt;
use std::marker::Model;

// A list of at most LIMIT items. Memory for all of them is taken when the list begins.
#[derive(Drop)]
pub struct Bounded<T, const LIMIT: usize> {
    items: Vec<T>,
}

// A clause sees its items, from place 0 on.
impl<T, const LIMIT: usize> Model for Bounded<T, LIMIT> {
    ghost Value = { List T };

    ghost view = { λ b. b.items.items };

    ghost invariant = { λ b. (length b.items.items ≤ LIMIT) × (LIMIT ≤ vec_capacity b.items) };
}

// A list has no place for one more item.
#[derive(Clone, Copy, PartialEq, Eq, Debug)]
pub struct Full;

impl fmt::Display for Full {
    fn fmt<W: fmt::Write>(&self, f: &mut fmt::Formatter<W>) -> fmt::Result {
        f.write_str("no place is left")
    }
}

impl Error for Full {}

impl<T: Copy, const LIMIT: usize> Bounded<T, LIMIT> {
    // A list of no items.
    pub fn new(heap: Global) -> Result<Bounded<T, LIMIT>, AllocError>
        ensures { IfOk result (λ list. list ≡ []) }
    {
        let items = Vec::with_capacity(heap, LIMIT)?;
        Ok(Bounded { items })
    }

    // Puts an item at the end; a list at its limit refuses and stays as it is.
    pub fn push(&mut self, item: T) -> Result<(), Full>
        ensures { MatchResult result
            (λ _. self.new ≡ self.old ++ item ∷ [])
            (λ _. (length self.old ≡ LIMIT) × (self.new ≡ self.old)) }
    {
        if self.items.len() == LIMIT {
            return Err(Full);
        }
        self.items.push_reserved(item);
        Ok(())
    }

    pub fn as_slice(&self) -> &[T]
        ensures items { result.now ≡ self.now }
        ensures few { length result.now ≤ LIMIT }
    {
        self.items.as_slice()
    }
}
