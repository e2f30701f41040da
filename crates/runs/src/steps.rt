// One step of a case.
ghost use Rattle.std.specs.Prelude.{◌≡◌, ◌<◌, length};
ghost use Rattle.schema.specs.Schemas.{parts};
ghost use Rattle.runs.specs.Steps.{branch_in, fits_in, next_fact, NodeTold, Sets, Stepped, step_in};

use facts::Facts;
use marking::marking::node_state;
use model::refusal::StepRefusal;
use model::{Element, Entry, Fact, State};
use schema::schema::Schema;

// Whether the block that begins at `place` has this branch.
fn branch_exists(schema: &Schema, place: usize, branch: u8) -> bool
    ensures { result ≡ branch_in (parts schema.now).row place branch }
{
    let join = schema.end(place).and_then(|end| schema.position(end));
    join.is_some_and(|position| branch <= position.branch)
}

// Whether the schema has a node of the entry's kind with its id, and the branch of a choice.
fn fits(schema: &Schema, entry: Entry) -> bool
    ensures { result ≡ fits_in (parts schema.now).row entry }
{
    let Some(place) = schema.place(entry.id()) else {
        return false;
    };
    match (schema.row()[place], entry) {
        (Element::Activity(_), Entry::Start(_) | Entry::End(_)) => true,
        (Element::XorSplit(_), Entry::Choose(_, branch)) => branch_exists(schema, place, branch),
        (Element::LoopEnd(_), Entry::Leave(_)) => true,
        _ => false,
    }
}

// The step rule: the fact that a step sets in a node of this state, if it may.
fn next_fact(state: State, entry: Entry) -> Option<Fact>
    ensures { result ≡ next_fact state entry }
{
    match (state, entry) {
        (State::Activated, Entry::Start(_)) => Some(Fact::Begun),
        (State::Running, Entry::End(_)) => Some(Fact::Ended),
        (State::Activated, Entry::Choose(_, branch)) => Some(Fact::Decided(branch)),
        (State::Activated, Entry::Leave(_)) => Some(Fact::Left),
        _ => None,
    }
}

// The fact that a step sets, if it may be taken.
#[tactic(auto, using(crate::proofs::NodesFit::node_told, crate::proofs::Allows::sets_its_fact))]
pub fn fact_of_step(schema: &Schema, facts: &Facts, entry: Entry) -> Result<Fact, StepRefusal>
    ensures fact { Sets (step_in (parts schema.now) facts.now entry) facts.now entry result }
    ensures node { NodeTold (parts schema.now).row entry }
{
    if !fits(schema, entry) {
        return Err(StepRefusal::Node);
    }
    let state = node_state(schema, facts, entry.id());
    let next = state.and_then(|state| next_fact(state, entry));
    next.ok_or(StepRefusal::State)
}

// Takes one step: its fact is noted, or it is refused and nothing changes.
pub fn step(schema: &Schema, facts: &mut Facts, entry: Entry) -> Result<(), StepRefusal>
    ensures after { Stepped (step_in (parts schema.now) facts.old entry) facts.old facts.new result }
    ensures node { NodeTold (parts schema.now).row entry }
{
    let fact = fact_of_step(schema, facts, entry)?;
    facts.note(entry.id(), fact);
    Ok(())
}
