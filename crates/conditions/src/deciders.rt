// Which decision fell against an activity.
ghost use Rattle.std.specs.Prelude.{◌≡◌, []};
ghost use Rattle.schema.specs.Schemas.{parts};
ghost use Rattle.conditions.specs.Deciders.{with_decision, decisions_at, decided_against};
ghost use Rattle.conditions.specs.Conditions.{decider};

use bounded::get_or;
use facts::Facts;
use model::{Element, Fact};
use schema::schema::Schema;

// The decision of the block that this element begins, if it was decided for another branch than this one.
fn against(facts: &Facts, element: Element, branch: u8) -> Option<u8>
    ensures { result ≡ decided_against facts.now (with_decision element branch []) }
{
    let Element::XorSplit(id) = element else {
        return None;
    };
    match facts.of(id) {
        Fact::Decided(decided) if decided != branch => Some(id),
        _ => None,
    }
}

// The outermost decision around the element at this place that was decided for another branch than the one that holds it.
#[tactic(auto, using(crate::proofs::Against::none_passed, crate::proofs::Against::passed_on, crate::proofs::Against::no_place, crate::proofs::Against::no_block, crate::proofs::Against::all_passed))]
fn decider_at(schema: &Schema, facts: &Facts, place: usize) -> Option<u8>
    ensures { result ≡ decided_against facts.now (decisions_at (parts schema.now).row place) }
{
    let row = schema.row();
    let mut place = place;
    let mut decider = None;
    for _ in 0..row.len() {
        let Some(position) = schema.position(place) else {
            return decider;
        };
        let Some(start) = position.block else {
            return decider;
        };
        place = usize::from(start);
        let split = get_or(row, place, Element::AndSplit);
        decider = against(facts, split, position.branch).or(decider);
    }
    decider
}

// The outermost decision that fell against a node.
pub(crate) fn decider(schema: &Schema, facts: &Facts, id: u8) -> Option<u8>
    ensures { result ≡ decider (parts schema.now).row facts.now id }
{
    decider_at(schema, facts, schema.place(id)?)
}
