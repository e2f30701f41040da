// The marking of a schema's nodes.
ghost use Rattle.std.specs.Prelude.{◌≡◌, length};
ghost use Rattle.model.specs.Signals.{decided};
ghost use Rattle.schema.specs.Schemas.{parts};
ghost use Rattle.marking.specs.States.{state_in, finished_in};

use crate::nearby::{signal_at, telling_signal};
use crate::states::{Signals, state_of};
use bounded::get_or;
use facts::Facts;
use model::{Fact, Signal, State};
use schema::schema::Schema;
use std::array;

// The state of each node and the branches that were decided, by id, and whether the case is finished. Arrays, since
// marking takes no memory; two, and not one of pairs, since they are asked by id, for one value each.
// No model: `MarkingOf` tells its fields one by one.
#[derive(Clone, Copy)]
pub struct Marking {
    states: [Option<State>; 64],
    branches: [Option<u8>; 64],
    finished: bool,
    ghost states_long: { length states ≡ 64 },
    ghost branches_long: { length branches ≡ 64 },
}

impl Marking {
    ghost use Rattle.std.specs.Prelude.{None, slice_index_or};
    ghost use Rattle.marking.specs.Machine.{signals, start, OfTree};
    ghost use Rattle.marking.specs.Markings.{MarkingOf};

    // The marking of a schema whose nodes have these facts, in one pass over its row.
    pub fn of(schema: &Schema, facts: &Facts) -> Marking
        ensures value { MarkingOf (parts schema.now).row (parts schema.now).edges facts.now result }
        ensures tree { OfTree facts.now (parts schema.now).row (signals facts.now start (parts schema.now).row) }
    {
        let signals = Signals::of(schema, facts);
        // the ids are below 64, as the check proves: casts, since `u8::try_from` would answer an error that can't come
        Marking {
            states: array::from_fn(|id| signals.state(id as u8)),
            branches: array::from_fn(|id| decided(facts.of(id as u8))),
            finished: signals.is_finished(),
        }
    }

    // The state of a node, if the schema has it.
    pub fn state(&self, id: u8) -> Option<State>
        ensures { result ≡ slice_index_or self.now.states id None }
    {
        get_or(&self.states, usize::from(id), None)
    }

    // The branch that a decision decided.
    pub fn branch(&self, id: u8) -> Option<u8>
        ensures { result ≡ slice_index_or self.now.branches id None }
    {
        get_or(&self.branches, usize::from(id), None)
    }

    pub fn is_finished(&self) -> bool
        ensures { result ≡ self.now.finished }
    {
        self.finished
    }
}

// The branch that a decision decided.
pub(crate) fn decided(fact: Fact) -> Option<u8>
    ensures { result ≡ decided fact }
{
    match fact {
        Fact::Decided(branch) => Some(branch),
        _ => None,
    }
}

// The state of one node under these facts, if the schema has it.
#[tactic(auto, using(crate::proofs::NodeStates::state_none, crate::proofs::NodeStates::state_at, crate::proofs::NodeStates::state_told, schema::proofs::Checked::checked_fine))]
pub fn node_state(schema: &Schema, facts: &Facts, id: u8) -> Option<State>
    ensures { result ≡ state_in (parts schema.now).row (parts schema.now).edges facts.now id }
{
    let place = schema.place(id)?;
    let signal = telling_signal(schema, facts, place, facts.of(id));
    Some(state_of(schema, facts, id, signal))
}

// Whether a case with these facts is finished: the gap behind the row is true.
pub fn is_finished(schema: &Schema, facts: &Facts) -> bool
    ensures { result ≡ finished_in (parts schema.now).row facts.now }
{
    signal_at(schema, facts, schema.row().len()) == Signal::True
}
