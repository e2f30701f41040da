// A draft of a plan.
ghost use Rattle.std.specs.Prelude.{◌≡◌, ◌+◌, ◌≤◌, length, vec_capacity};

use crate::copying::spaces;
use crate::plan::Plan;
use changes::Change;
use draft_rules::PlanRefusal;
use plan_record::{PlanRecord, RawChange};
use record::Record;
use schema::schema::Schema;
use schema::space::Space;
use std::alloc::{AllocError, Global};

// The plan so far, and memory for the schemas after the changes that can still come. No `impl Model`, as for a plan.
#[derive(Drop)]
pub struct Draft {
    plan: Plan,
    spare: Vec<Space>,
    ghost spares: { length spare.items + length plan.changes ≡ 16 },
    ghost room: { 16 ≤ vec_capacity plan.later },
}

impl Draft {
    ghost use Rattle.std.specs.Prelude.{Ok, None, map, IfOk};
    ghost use Rattle.schema.specs.Schemas.{parts};
    ghost use Rattle.plan_record.specs.Changes.{change_from};
    ghost use Rattle.draft_rules.specs.Stages.{changed_all};
    ghost use Rattle.draft_rules.specs.Rules.{refusal};
    ghost use Rattle.drafts.specs.Plans.{begun, add_answer, added, lengthened, all_added, plan_read, AddedAll};
    ghost use Rattle.drafts.specs.Rightly.{AddedRightly, OnlyRight};
    ghost use Rattle.drafts.specs.Views.{planned, shown};
    ghost use Rattle.drafts.specs.DraftViews.{drafted};

    // Takes all memory that will be wanted.
    pub fn begin(heap: Global, base: &Schema) -> Result<Draft, AllocError>
        ensures { IfOk result (λ draft. drafted draft ≡ begun (parts base.now)) }
    {
        let plan = Plan::begin(heap, base)?;
        let spare = spaces(heap)?;
        Ok(Draft { plan, spare })
    }

    // Adds the change that four bytes spell; one that is refused changes nothing.
    pub fn add(&mut self, raw: RawChange) -> Result<(), PlanRefusal>
        ensures answer { result ≡ add_answer (drafted self.old) raw }
        ensures after { drafted self.new ≡ added (drafted self.old) raw }
        ensures same { (result ≡ Ok tt → ⊥) → self.new ≡ self.old }
        ensures rightly { AddedRightly (drafted self.old) raw (drafted self.new) result }
        ensures only { OnlyRight (drafted self.old) raw result }
    {
        match self.plan.judge(raw) {
            Ok(change) => {
                self.take(change);
                Ok(())
            }
            Err(refusal) => Err(PlanRefusal::Change {
                place: self.plan.changes().len(),
                id: raw.a,
                refusal,
            }),
        }
    }

    // Carries out a change that may come next.
    fn take(&mut self, change: Change)
        requires { refusal (drafted self.old).base.row (drafted self.old).changes (changed_all (drafted self.old).changes (drafted self.old).base) change ≡ None }
        ensures { drafted self.new ≡ lengthened (drafted self.old) (Ok change) }
    {
        let space = self.spare.pop().unwrap();
        self.plan.lengthen(change, space);
    }

    // Adds the changes that these bytes spell, four each, up to the first that is refused.
    fn add_all(&mut self, pieces: &[[u8; 4]]) -> Result<(), PlanRefusal>
        ensures { AddedAll (all_added (drafted self.old) (map change_from pieces.now)) (drafted self.new) result }
    {
        for piece in pieces {
            self.add(RawChange::from(*piece))?;
        }
        Ok(())
    }

    // Adds the changes that a plan line lists, one after the other, and releases the plan; else why the line is refused, or
    // the first change that is.
    pub fn read(mut self, line: &[u8]) -> Result<Plan, PlanRefusal>
        ensures { shown result ≡ plan_read (drafted self) line.now }
    {
        // the plan record borrows the record, so no one call gives both
        let Ok(record) = Record::try_from(line) else {
            return Err(PlanRefusal::Line);
        };
        let Ok(given) = PlanRecord::try_from(record.bytes()) else {
            return Err(PlanRefusal::Line);
        };
        self.add_all(given.pieces())?;
        Ok(self.release())
    }

    // The plan as it is now.
    pub fn release(self) -> Plan
        ensures { planned result ≡ drafted self }
    {
        let Draft { plan, spare: _ } = self;
        plan
    }
}
