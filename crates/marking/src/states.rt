// The states of a schema's nodes, from the signals of its gaps.
ghost use Rattle.std.specs.Prelude.{◌≡◌, ◌+◌, length, take, slice_index_or};
ghost use Rattle.model.specs.Signals.{fact_of};
ghost use Rattle.model.specs.States.{state_of};
ghost use Rattle.schema.specs.Schemas.{parts};
ghost use Rattle.marking.specs.Machine.{signals, start};
ghost use Rattle.marking.specs.States.{own_in, free_in, state_in, finished_in};

use crate::dead::is_free;
use crate::signals::{is_done, mark};
use bounded::get_or;
use facts::Facts;
use model::{Fact, Signal, State};
use schema::schema::Schema;

// A schema, the facts of its nodes, and the signals of its gaps under them, in an array, since marking takes
// no memory, and no `ArrayVec`, since that asks a default of signals.
#[derive(Drop)]
pub struct Signals<'a> {
    pub schema: &'a Schema,
    pub facts: &'a Facts,
    gaps: [Signal; 129],
    ghost long: { length gaps ≡ 129 },
    ghost told: { take (length (parts schema.now).row + 1) gaps ≡ signals facts.now start (parts schema.now).row },
}

// The state of a node, from its own signal. The edges are looked at only where they tell.
pub(crate) fn state_of(schema: &Schema, facts: &Facts, id: u8, signal: Signal) -> State
    ensures { result ≡ state_of signal (fact_of facts.now id) (free_in (parts schema.now).row (parts schema.now).edges facts.now id) }
{
    let fact = facts.of(id);
    match (signal, fact) {
        (Signal::False, _) => State::Skipped,
        _ if is_done(fact) => State::Completed,
        (_, Fact::Begun) => State::Running,
        (Signal::True, Fact::Nothing) if is_free(schema, facts, id) => State::Activated,
        _ => State::NotActivated,
    }
}

impl<'a> Signals<'a> {
    pub fn of(schema: &'a Schema, facts: &'a Facts) -> Signals<'a>
        ensures schema { result.schema.now ≡ schema.now }
        ensures facts { result.facts.now ≡ facts.now }
    {
        Signals {
            schema,
            facts,
            gaps: mark(schema.row(), facts),
        }
    }

    // The signal of the gap before the node's element, if the schema has the node.
    #[tactic(auto, using(crate::proofs::Owns::own_taken, crate::proofs::Owns::own_none, schema::proofs::Checked::checked_fine))]
    fn own(&self, id: u8) -> Option<Signal>
        ensures { result ≡ own_in (parts self.now.schema.now).row self.now.facts.now id }
    {
        let place = self.schema.place(id)?;
        Some(self.gaps[place])
    }

    // The state of a node, if the schema has it.
    pub fn state(&self, id: u8) -> Option<State>
        ensures { result ≡ state_in (parts self.now.schema.now).row (parts self.now.schema.now).edges self.now.facts.now id }
    {
        let signal = self.own(id)?;
        Some(state_of(self.schema, self.facts, id, signal))
    }

    // The signal of a gap; past the row's end there is none.
    pub fn of_gap(&self, gap: usize) -> Signal
        ensures { result ≡ slice_index_or (signals self.now.facts.now start (parts self.now.schema.now).row) gap Signal.None }
    {
        get_or(&self.gaps[..=self.schema.row().len()], gap, Signal::None)
    }

    // Whether the case is finished: the gap behind the row is true.
    pub(crate) fn is_finished(&self) -> bool
        ensures { result ≡ finished_in (parts self.now.schema.now).row self.now.facts.now }
    {
        let last = self.gaps[self.schema.row().len()];
        last == Signal::True
    }
}
