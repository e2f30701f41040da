// Bringing a worklist in step with the ids that are wanted, by difference.
ghost use Rattle.std.specs.Prelude.{◌≡◌, ◌<◌};
ghost use Rattle.ids.specs.Sets.{has};
ghost use Rattle.worklist.specs.Differences.{Brought, ByDifference};
ghost use Rattle.worklist.specs.Offers.{in_step_at};

use crate::Worklist;
use ids::IdSet;

// Offers what is wanted and not in, withdraws what is in and not wanted, and leaves the rest alone, from the least id on.
pub fn bring_in_step<W: Worklist>(worklist: &mut W, wanted: IdSet)
    ensures after { W.offered worklist.new ≡ has wanted }
    ensures difference { ByDifference W.offered W.offering W.withdrawing (has wanted) 64 worklist.old worklist.new }
{
    let offered = worklist.ids();
    // those that differ
    let mut rest = offered.difference(wanted).union(wanted.difference(offered));
    for _ in 0..64u8 {
        let Some(id) = rest.least() else {
            return;
        };
        bring_id_in_step(worklist, wanted, id);
        rest = rest.difference(IdSet::only(id));
    }
}

// The same for one id.
#[tactic(auto, using(crate::specs::Differences::left_alone, crate::specs::Differences::by_offer, crate::specs::Differences::by_withdrawal))]
fn bring_id_in_step<W: Worklist>(worklist: &mut W, wanted: IdSet, id: u8)
    requires { id < 64 }
    ensures after { W.offered worklist.new ≡ in_step_at id (has wanted) (W.offered worklist.old) }
    ensures difference { Brought W.offered W.offering W.withdrawing (has wanted) id worklist.old worklist.new }
{
    match (wanted.has(id), worklist.has(id)) {
        (true, false) => worklist.offer(id),
        (false, true) => worklist.withdraw(id),
        _ => {}
    }
}
