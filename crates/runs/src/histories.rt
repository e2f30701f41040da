// The run of a history, as it stands in a record.
ghost use Rattle.std.specs.Prelude.{◌≡◌, List};
ghost use Rattle.case_record.specs.Entries.{entries_in};
ghost use Rattle.schema.specs.Schemas.{parts};
ghost use Rattle.runs.specs.Histories.{judged_raw, ran, verdict, RunTold, RunOnly};
ghost use Rattle.runs.specs.Steps.{Stepped};

use crate::steps::step;
use case_record::{CaseRecord, RawEntry};
use facts::Facts;
use model::Entry;
use model::refusal::{CaseRefusal, StepRefusal};
use schema::schema::Schema;

// Takes the step that an entry's bytes say; bytes that say none are refused.
pub fn take(schema: &Schema, facts: &mut Facts, raw: RawEntry) -> Result<(), StepRefusal>
    ensures { Stepped (judged_raw (parts schema.now) facts.old raw) facts.old facts.new result }
{
    let entry = Entry::try_from(raw)?;
    step(schema, facts, entry)
}

// Runs the entries of a record. It stops at the first that is no allowed step, with the facts of before it.
pub fn run(schema: &Schema, facts: &mut Facts, history: CaseRecord<'_>) -> Result<(), CaseRefusal>
    ensures value { result ≡ verdict (ran (parts schema.now) facts.old 0 (entries_in history.entry.entries.now)).refusal }
    ensures after { facts.new ≡ (ran (parts schema.now) facts.old 0 (entries_in history.entry.entries.now)).facts }
    ensures told { RunTold (parts schema.now) facts.old (entries_in history.entry.entries.now) (ran (parts schema.now) facts.old 0 (entries_in history.entry.entries.now)) }
    ensures only { RunOnly (parts schema.now) facts.old (entries_in history.entry.entries.now) (ran (parts schema.now) facts.old 0 (entries_in history.entry.entries.now)) }
{
    for (place, raw) in history.iter().enumerate() {
        take(schema, facts, raw).map_err(|refusal| refusal.at(Some(place), raw.id))?;
    }
    Ok(())
}
