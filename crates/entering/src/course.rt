// The course of a case, and the steps that are entered in it.
ghost use Rattle.std.specs.Prelude.{◌≡◌, Some, Ok, Err};
ghost use Rattle.model.specs.Entries.{entry_read};
ghost use Rattle.case_record.specs.Entries.{entries_in};
ghost use Rattle.agreement.specs.Laws.{no_facts};
ghost use Rattle.marking.specs.Markings.{MarkingOf};
ghost use Rattle.marking.specs.States.{state_in, finished_in};
ghost use Rattle.history.specs.Stores.{cleared};
ghost use Rattle.draft_rules.specs.Plans.{released_of};
ghost use Rattle.drafts.specs.Views.{planned};
ghost use Rattle.lives.specs.declared.CallRefusal.{CallRefusal};
ghost use Rattle.lives.specs.Calls.{held, entered, repeated, taken};
ghost use Rattle.lives.specs.Moves.{move_refusal};
ghost use Rattle.lives.specs.Lives.{Leaves};
ghost use Rattle.entering.specs.Changes.{Changed, Reached};
ghost use Rattle.entering.specs.Courses.{schema_of, held_in, progress_of, Becomes};

use crate::entries::{enter, take, take_all};
use case_record::{CaseRecord, RawEntry};
use conditions::failures::first_failing;
use drafts::plan::Plan;
use facts::Facts;
use history::Store;
use lives::CallRefusal;
use marking::marking::{Marking, is_finished, node_state};
use model::{Entry, State};
use rounds::nodes::round_of;
use runs::steps::fact_of_step;
use schema::schema::Schema;

// What has happened on a schema: the facts of its nodes, and the history that a store keeps. No `impl Model`: a case gives the
// store itself back, and a model would show only what it means.
#[derive(Drop)]
pub struct Course<'s, S: Store> {
    pub schema: &'s Schema,
    pub facts: Facts,
    pub store: S,
}

impl<'s, S: Store> Course<'s, S> {
    // A course on this schema, begun; what the store held is cleared.
    pub fn new(schema: &'s Schema, store: S) -> Course<'s, S>
        ensures begun { held_in S.view result ≡ held no_facts (cleared (S.view store)) }
        ensures schema { result.schema.now ≡ schema.now }
    {
        let mut course = Course {
            schema,
            facts: Facts::none(),
            store,
        };
        course.begin();
        course
    }

    // Nothing has happened yet.
    pub fn begin(&mut self)
        ensures { Becomes S.view (λ h k. k ≡ held no_facts (cleared h.store)) self.old self.new }
    {
        self.facts = Facts::none();
        self.store.clear();
    }

    // The states of all nodes, the decided branches, and whether all has ended.
    pub fn marking(&self) -> Marking
        ensures { MarkingOf (schema_of self.now).row (schema_of self.now).edges self.now.facts result }
    {
        Marking::of(self.schema, &self.facts)
    }

    // The state of one node, if the schema has it.
    pub fn state(&self, id: u8) -> Option<State>
        ensures { result ≡ state_in (schema_of self.now).row (schema_of self.now).edges self.now.facts id }
    {
        node_state(self.schema, &self.facts, id)
    }

    // Whether all has ended.
    pub fn is_finished(&self) -> bool
        ensures { result ≡ finished_in (schema_of self.now).row self.now.facts }
    {
        is_finished(self.schema, &self.facts)
    }

    // As `entries::enter`, of its own facts and store.
    pub fn enter(&mut self, place: Option<usize>, entry: Entry) -> Result<(), CallRefusal>
        ensures after { Becomes S.view (λ h k. Changed (entered (schema_of self.old) place entry h) h k result) self.old self.new }
        ensures same { (r : CallRefusal) → result ≡ Err r → self.new ≡ self.old }
    {
        enter(self.schema, &mut self.facts, &mut self.store, place, entry)
    }

    // Goes round once more in the loop of an Activated test: what happened between its start and its end is forgotten.
    pub fn repeat(&mut self, test: u8) -> Result<(), CallRefusal>
        ensures after { Becomes S.view (λ h k. Changed (repeated S.Cost.PLACES (schema_of self.old) test k.store.free h) h k result) self.old self.new }
        ensures bounds { result ≡ Ok tt → Leaves S.Cost.PLACES test (S.view self.new.store).free (schema_of self.old) (S.view self.old.store) }
        ensures same { (r : CallRefusal) → result ≡ Err r → self.new ≡ self.old }
    {
        // it needs what leaving needs, and sets no fact
        fact_of_step(self.schema, &self.facts, Entry::Leave(test)).map_err(|refusal| refusal.at(
            None, test,
        ))?;
        let round = round_of(self.schema, test);
        self.store.purge(round).map_err(|_| CallRefusal::Store {
            place: None,
            id: test,
        })?;
        self.facts.forget(round);
        Ok(())
    }

    // As `entries::take`.
    pub fn take(&mut self, place: usize, raw: RawEntry) -> Result<(), CallRefusal>
        ensures { Becomes S.view (λ h k. Changed (taken (schema_of self.old) place raw h (entry_read raw.kind raw.id raw.branch)) h k result) self.old self.new }
    {
        take(self.schema, &mut self.facts, &mut self.store, place, raw)
    }

    // As `entries::take_all`.
    pub fn take_all(&mut self, history: CaseRecord<'_>) -> Result<(), CallRefusal>
        ensures after { Becomes S.view (λ h k. Reached (schema_of self.old) (entries_in history.entry.entries.now) h k result) self.old self.new }
        ensures capacity { (S.view self.new.store).capacity ≡ (S.view self.old.store).capacity }
    {
        take_all(self.schema, &mut self.facts, &mut self.store, history)
    }

    // Begins anew on another schema.
    pub fn begin_on(&mut self, schema: &'s Schema)
        ensures begun { held_in S.view self.new ≡ held no_facts (cleared (S.view self.old.store)) }
        ensures schema { self.new.schema.now ≡ schema.now }
    {
        self.schema = schema;
        self.begin();
    }

    // Why the course may not go on on the schema that a plan gives, if it may not.
    pub fn move_refusal(&self, plan: &Plan) -> Option<CallRefusal>
        ensures { result ≡ move_refusal (planned plan.now) (progress_of self.now) (S.view self.now.store).list }
    {
        if self.is_finished() {
            return Some(CallRefusal::Finished);
        }
        if !plan.is_of(self.schema) {
            return Some(CallRefusal::OtherBase);
        }
        let (place, id) = first_failing(plan, &self.facts, &self.store)?;
        Some(CallRefusal::Change { place, id })
    }

    // Goes on on the schema that a plan gives. Facts and history stay.
    pub fn go_on(&mut self, plan: &'s Plan)
        ensures schema { schema_of self.new ≡ released_of (planned plan.now) }
        ensures facts { self.new.facts ≡ self.old.facts }
        ensures store { self.new.store ≡ self.old.store }
    {
        self.schema = plan.released();
    }
}
