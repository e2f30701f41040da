// What conditions ask of a state; of a node that the schema has not, there is none.
ghost use Rattle.std.specs.Prelude.{◌≡◌};
ghost use Rattle.schema.specs.Schemas.{parts};
ghost use Rattle.marking.specs.States.{state_in};
ghost use Rattle.conditions.specs.Conditions.{is_busy, is_completed, is_skipped};

use facts::Facts;
use marking::marking::node_state;
use model::{Fact, State};
use schema::schema::Schema;

// Running or Completed.
fn is_busy(state: Option<State>) -> bool
    ensures { result ≡ is_busy state }
{
    matches!(state, Some(State::Running | State::Completed))
}

pub(crate) fn is_completed(state: Option<State>) -> bool
    ensures { result ≡ is_completed state }
{
    matches!(state, Some(State::Completed))
}

pub(crate) fn is_skipped(state: Option<State>) -> bool
    ensures { result ≡ is_skipped state }
{
    matches!(state, Some(State::Skipped))
}

// Whether a node is Running or Completed. Where nothing happened to it, it is neither, and its state need not be looked for.
#[tactic(auto, using(crate::proofs::Begun::not_begun))]
pub(crate) fn has_begun(schema: &Schema, facts: &Facts, id: u8) -> bool
    ensures { result ≡ is_busy (state_in (parts schema.now).row (parts schema.now).edges facts.now id) }
{
    facts.of(id) != Fact::Nothing && is_busy(node_state(schema, facts, id))
}
