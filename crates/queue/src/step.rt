// What bringing a queue in step leaves of its order.
ghost use Rattle.std.specs.Prelude.{◌≡◌};
ghost use Rattle.ids.specs.Sets.{has};
ghost use Rattle.queue.specs.Orders.{order_in_step};
ghost use Rattle.queue.specs.Queues.{order, queued};

use crate::Queue;
use ids::IdSet;
use worklist::bring_in_step;

// What stays keeps its order, and what is new stands behind it, ascending.
#[tactic(auto, using(crate::proofs::InStep::order_after))]
pub fn bring_queue_in_step(queue: &mut Queue, wanted: IdSet)
    ensures after { queued queue.new ≡ has wanted }
    ensures besides { order queue.new ≡ order_in_step (has wanted) (order queue.old) }
{
    bring_in_step(queue, wanted);
}
