// Whether something may be put in at a gap.
ghost use Rattle.std.specs.Prelude.{◌≡◌};
ghost use Rattle.model.specs.Signals.{is_false};
ghost use Rattle.schema.specs.Schemas.{parts};
ghost use Rattle.conditions.specs.Conditions.{least_busy, hindered_at};

use crate::states::has_begun;
use facts::Facts;
use ids::IdSet;
use marking::nearby::signal_at;
use model::Signal;
use schema::schema::Schema;

// The least of these nodes that is Running or Completed.
#[tactic(auto, using(crate::proofs::BusyNodes::all_left, crate::proofs::BusyNodes::none_left, crate::proofs::BusyNodes::found_here, crate::proofs::BusyNodes::one_less))]
fn least_busy(schema: &Schema, facts: &Facts, nodes: IdSet) -> Option<u8>
    ensures { result ≡ least_busy (parts schema.now) facts.now nodes }
{
    let mut rest = nodes;
    for _ in 0..64u8 {
        let id = rest.least()?;
        if has_begun(schema, facts, id) {
            return Some(id);
        }
        rest = rest.difference(IdSet::only(id));
    }
    None
}

fn is_false(signal: Signal) -> bool
    ensures { result ≡ is_false signal }
{
    signal == Signal::False
}

// The least follower of the gap that is Running or Completed; none where the gap is false. Mostly no follower is, and the
// signal need not be looked for.
#[tactic(auto, unfolding(crate::specs::Conditions::least_busy))]
pub(crate) fn hindered_at(schema: &Schema, facts: &Facts, gap: u8) -> Option<u8>
    ensures { result ≡ hindered_at (parts schema.now) facts.now gap }
{
    let gap = usize::from(gap);
    let busy = least_busy(schema, facts, schema.followers(gap))?;
    if is_false(signal_at(schema, facts, gap)) {
        None
    } else {
        Some(busy)
    }
}
