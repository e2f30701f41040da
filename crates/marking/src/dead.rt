// Where signals are false: told by the decisions around a place, without the signals themselves.
ghost use Rattle.std.specs.Prelude.{◌≡◌, ◌<◌, length, slice_index_or};
ghost use Rattle.model.specs.declared.Element.TheVariants.{AndSplit};
ghost use Rattle.schema.specs.Schemas.{parts};
ghost use Rattle.marking.specs.Nearby.{dead, decision, branch_of, fell_against};
ghost use Rattle.marking.specs.States.{settled_in, free_in};

use crate::marking::decided;
use crate::signals::is_done;
use bounded::get_or;
use facts::Facts;
use model::Element;
use schema::schema::Schema;

// The decision of the block that begins at this place, if that is an XOR block.
pub(crate) fn decision(schema: &Schema, split: usize) -> Option<u8>
    ensures { result ≡ decision (slice_index_or (parts schema.now).row split AndSplit) }
{
    match get_or(schema.row(), split, Element::AndSplit) {
        Element::XorSplit(id) => Some(id),
        _ => None,
    }
}

// Whether the decision of the block that begins at this place fell against the branch, if it was made.
fn fell_against(schema: &Schema, facts: &Facts, split: usize, branch: u8) -> Option<bool>
    ensures { result ≡ fell_against (branch_of facts.now (decision (slice_index_or (parts schema.now).row split AndSplit))) branch }
{
    let decided = decided(facts.of(decision(schema, split)?))?;
    Some(decided != branch)
}

// Whether the signal is false where the element at this place stands. Of the decisions around it that were made, the
// innermost tells: it made its own branch true, whatever is false further out.
#[tactic(auto, using(crate::proofs::Around::dead_outside, crate::proofs::Around::start_before, crate::proofs::Around::dead_told, crate::proofs::Around::dead_open))]
pub(crate) fn is_dead(schema: &Schema, facts: &Facts, place: usize) -> bool
    requires { place < length (parts schema.now).row }
    ensures { result ≡ dead (parts schema.now).row facts.now place }
{
    let Some(position) = schema.position(place) else {
        return false;
    };
    let Some(block) = position.block else {
        return false;
    };
    let split = usize::from(block);
    match fell_against(schema, facts, split, position.branch) {
        Some(against) => against,
        None => is_dead(schema, facts, split),
    }
}

// Whether a node is completed or skipped.
#[tactic(auto, using(crate::proofs::NodeStates::settled_none, crate::proofs::NodeStates::settled_done, crate::proofs::NodeStates::settled_dead, schema::proofs::Checked::checked_fine))]
fn is_settled(schema: &Schema, facts: &Facts, id: u8) -> bool
    ensures { result ≡ settled_in (parts schema.now).row facts.now id }
{
    let Some(place) = schema.place(id) else {
        return false;
    };
    is_done(facts.of(id)) || is_dead(schema, facts, place)
}

// Whether every sync source of a node is completed or skipped.
pub(crate) fn is_free(schema: &Schema, facts: &Facts, id: u8) -> bool
    ensures { result ≡ free_in (parts schema.now).row (parts schema.now).edges facts.now id }
{
    schema.edges().iter().all(|edge| edge.target != id || is_settled(schema, facts, edge.source))
}
