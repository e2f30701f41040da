// Whether the changes of a plan may be made under a running case, one after the other.
ghost use Rattle.std.specs.Prelude.{◌≡◌};
ghost use Rattle.drafts.specs.Views.{planned};
ghost use Rattle.conditions.specs.Conditions.{failing};

use crate::hindrances::hindrance;
use drafts::plan::Plan;
use facts::Facts;
use history::Store;

// The first change that fails, each judged on the schema that those before it left: its place, and the node by which it fails.
#[tactic(auto, using(crate::proofs::StageByStage::from_first, crate::proofs::StageByStage::fails_here, crate::proofs::StageByStage::passes_here, crate::proofs::StageByStage::none_left))]
pub fn first_failing<S: Store>(plan: &Plan, facts: &Facts, store: &S) -> Option<(usize, u8)>
    ensures { result ≡ failing (planned plan.now).base facts.now (S.view store.now).list 0 (planned plan.now).changes }
{
    for (place, change) in plan.changes().iter().enumerate() {
        let stage = plan.stage(place).unwrap();
        if let Some(id) = hindrance(stage, facts, store, *change) {
            return Some((place, id));
        }
    }
    None
}
