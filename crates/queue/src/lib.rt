// A worklist that keeps the order of offering.
#![tactic(auto)]

ghost use Rattle.std.specs.Prelude.{◌≡◌, ◌≤◌, true, [], length};
ghost use Rattle.worklist.specs.Offers.{none_offered, with_id, without_id};
ghost use Rattle.queue.specs.Orders.{each_once, offered_order, withdrawn_order};

mod step;
#[cfg(test)]
mod tests;

use arrayvec::ArrayVec;
use ids::IdSet;
pub use step::bring_queue_in_step;
use worklist::Worklist;

// Each id is in at most once, so 64 places are enough.
// No model: a worklist's law `bounded` is of all its values, and a model's value would not carry `once`, from which it follows.
#[derive(Drop)]
pub struct Queue {
    ids: ArrayVec<u8, 64>,
    ghost once: { each_once ids.items ≡ true },
}

impl Queue {
    ghost use Rattle.queue.specs.Queues.{order};

    // A queue with no id.
    pub fn new() -> Queue
        ensures { order result ≡ [] }
    {
        Queue {
            ids: ArrayVec::new(),
        }
    }

    // The ids in the order of their offering.
    pub fn as_slice(&self) -> &[u8]
        ensures value { result.now ≡ order self.now }
        ensures few { length result.now ≤ 64 }
    {
        self.ids.as_slice()
    }
}

impl Worklist for Queue {
    ghost use Rattle.std.specs.Prelude.{◌≡◌};
    ghost use Rattle.queue.specs.Bounds.{queued_past};
    ghost use Rattle.queue.specs.Orders.{offered_order, withdrawn_order};
    ghost use Rattle.queue.specs.Queues.{order, queued};

    ghost offered = { queued };

    ghost bounded = { queued_past };

    ghost offering = { λ a id b. order b ≡ offered_order id (order a) };

    ghost withdrawing = { λ a id b. order b ≡ withdrawn_order id (order a) };

    fn clear(&mut self)
        ensures after { queued self.new ≡ none_offered }
        ensures besides { order self.new ≡ [] }
    {
        self.ids.clear();
    }

    // A new id stands at the end; one that is in keeps its place.
    #[tactic(auto, using(crate::proofs::Once::once_push, crate::proofs::Once::once_room))]
    fn offer(&mut self, id: u8)
        ensures after { queued self.new ≡ with_id id (queued self.old) }
        ensures besides { order self.new ≡ offered_order id (order self.old) }
    {
        if id < 64 && !self.has(id) {
            self.ids.push(id);
        }
    }

    // The others keep their order.
    #[tactic(auto, using(crate::proofs::Withdrawn::left_in_order))]
    fn withdraw(&mut self, id: u8)
        ensures after { queued self.new ≡ without_id id (queued self.old) }
        ensures besides { order self.new ≡ withdrawn_order id (order self.old) }
    {
        self.ids.retain(|other| *other != id);
    }

    fn has(&self, id: u8) -> bool {
        self.ids.contains(&id)
    }

    #[tactic(auto, using(crate::proofs::Once::count_once))]
    fn count(&self) -> usize {
        self.ids.len()
    }

    fn ids(&self) -> IdSet {
        let mut ids = IdSet::empty();
        for id in self.as_slice() {
            ids = ids.with(Some(*id));
        }
        ids
    }
}
