// Steps, entered in facts and a store: a course takes its steps so, and so does whoever has only a loan of a store.
ghost use Rattle.std.specs.Prelude.{◌≡◌, Err};
ghost use Rattle.model.specs.Entries.{entry_read};
ghost use Rattle.case_record.specs.Entries.{entries_in};
ghost use Rattle.schema.specs.Schemas.{parts};
ghost use Rattle.lives.specs.declared.CallRefusal.{CallRefusal};
ghost use Rattle.lives.specs.Calls.{held, entered, taken};
ghost use Rattle.entering.specs.Changes.{Changed, Reached};

use case_record::{CaseRecord, RawEntry};
use facts::Facts;
use history::Store;
use lives::CallRefusal;
use model::Entry;
use model::refusal::StepRefusal;
use runs::steps::fact_of_step;
use schema::schema::Schema;

// Takes a step that the schema allows and for which the store has a place; the place told is that in a record.
pub fn enter<S: Store>(
    schema: &Schema,
    facts: &mut Facts,
    store: &mut S,
    place: Option<usize>,
    entry: Entry,
) -> Result<(), CallRefusal>
    ensures after { Changed (entered (parts schema.now) place entry (held facts.old (S.view store.old))) (held facts.old (S.view store.old)) (held facts.new (S.view store.new)) result }
    ensures facts { (r : CallRefusal) → result ≡ Err r → facts.new ≡ facts.old }
    ensures store { (r : CallRefusal) → result ≡ Err r → store.new ≡ store.old }
{
    let id = entry.id();
    let fact = fact_of_step(schema, facts, entry).map_err(|refusal| refusal.at(place, id))?;
    store
        .add(entry)
        .map_err(|_| CallRefusal::Store { place, id })?;
    facts.note(id, fact);
    Ok(())
}

// Takes the step that the bytes at a place of a record say; bytes that say none are refused.
pub fn take<S: Store>(
    schema: &Schema,
    facts: &mut Facts,
    store: &mut S,
    place: usize,
    raw: RawEntry,
) -> Result<(), CallRefusal>
    ensures { Changed (taken (parts schema.now) place raw (held facts.old (S.view store.old)) (entry_read raw.kind raw.id raw.branch)) (held facts.old (S.view store.old)) (held facts.new (S.view store.new)) result }
{
    let entry = Entry::try_from(raw).map_err(|unspelled| StepRefusal::from(unspelled).at(
        Some(place),
        raw.id,
    ))?;
    enter(schema, facts, store, Some(place), entry)
}

// Takes the steps of a record, each judged in full before the next, up to the first that is refused; those before it stay.
pub fn take_all<S: Store>(
    schema: &Schema,
    facts: &mut Facts,
    store: &mut S,
    history: CaseRecord<'_>,
) -> Result<(), CallRefusal>
    ensures after { Reached (parts schema.now) (entries_in history.entry.entries.now) (held facts.old (S.view store.old)) (held facts.new (S.view store.new)) result }
    ensures capacity { (S.view store.new).capacity ≡ (S.view store.old).capacity }
{
    for (place, raw) in history.iter().enumerate() {
        take(schema, facts, store, place, raw)?;
    }
    Ok(())
}
