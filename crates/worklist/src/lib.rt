// What is offered to do: the interface of a worklist, a board, and bringing any worklist in step.
#![tactic(auto)]

ghost use Rattle.std.specs.Prelude.{◌≡◌, ℕ, ◌≤◌, Bool, false};
ghost use Rattle.ids.specs.Counts.{how_many};
ghost use Rattle.ids.specs.Sets.{has};
ghost use Rattle.worklist.specs.Offers.{none_offered, with_id, without_id};

mod board;
mod step;
#[cfg(test)]
mod tests;

pub use board::Board;
use ids::IdSet;
pub use step::bring_in_step;

// A set of ids 0 to 63 that are on offer. Nothing refuses, and a question changes nothing.
pub trait Worklist {
    // The ids on offer: all that a worklist means.
    ghost offered: { Self → ℕ → Bool };

    ghost bounded: { (s : Self) (id : ℕ) → 64 ≤ id → offered s id ≡ false };

    // What a kind of worklist promises besides of an offer: before, the id, after.
    ghost offering: { Self → ℕ → Self → Type 0 };

    // What it promises besides of a withdrawal.
    ghost withdrawing: { Self → ℕ → Self → Type 0 };

    fn clear(&mut self)
        ensures { offered self.new ≡ none_offered };

    // An id above 63 changes nothing.
    fn offer(&mut self, id: u8)
        ensures after { offered self.new ≡ with_id id (offered self.old) }
        ensures besides { offering self.old id self.new };

    fn withdraw(&mut self, id: u8)
        ensures after { offered self.new ≡ without_id id (offered self.old) }
        ensures besides { withdrawing self.old id self.new };

    fn has(&self, id: u8) -> bool
        ensures { result ≡ offered self.now id };

    fn count(&self) -> usize
        ensures { result ≡ how_many (offered self.now) };

    // The ids on offer, as a set.
    fn ids(&self) -> IdSet
        ensures { (id : ℕ) → has result id ≡ offered self.now id };
}
