// What the first two lines of a batch give.
ghost use Rattle.std.specs.Prelude.{◌≡◌, ℕ, List, IfOk};
ghost use Rattle.std.specs.Option.{option_map, option_copied};
ghost use Rattle.record.specs.Lines.{held_of};
ghost use Rattle.schema.specs.Schemas.{parts, shown};
ghost use Rattle.judging.specs.Judgements.{by_schema, batch_read};
ghost use Rattle.judging.specs.Batches.{batch_of, base_in, refusal_in};

use crate::lines::characters;
use crate::ready::Ready;
use drafts::draft::Draft;
use model::refusal::{Reason, SchemaRefusal};
use record::LineBuffer;
use schema::schema::Schema;
use schema::space::Space;
use std::alloc::{AllocError, Global};
use verdicts::Verdict;

// A schema and a plan of it, or why one of them is refused.
#[derive(Drop)]
pub enum Batch {
    Ready(Ready),
    Refused(Reason),
}

impl Batch {
    // The batch of a schema that was read, and a plan line.
    fn of(
        heap: Global,
        schema: Result<Schema, SchemaRefusal>,
        plan: &[u8],
    ) -> Result<Batch, AllocError>
        ensures { IfOk result (λ batch. batch_of batch ≡ by_schema plan.now (shown schema)) }
    {
        let schema = match schema {
            Ok(schema) => schema,
            Err(refusal) => return Ok(Batch::Refused(Reason::from(refusal))),
        };
        let draft = Draft::begin(heap, &schema)?;
        match draft.read(plan) {
            Ok(plan) => Ok(Batch::Ready(Ready { schema, plan })),
            Err(refusal) => Ok(Batch::Refused(Reason::from(refusal))),
        }
    }

    // The batch of a schema line and a plan line. All memory for it is taken here.
    pub fn read(heap: Global, schema: &[u8], plan: &[u8]) -> Result<Batch, AllocError>
        ensures { IfOk result (λ batch. batch_of batch ≡ batch_read schema.now plan.now) }
    {
        let space = Space::new(heap)?;
        Batch::of(heap, Schema::read(space, schema), plan)
    }

    // The same for lines that came in through buffers.
    #[tactic(auto, using(crate::proofs::HeldLines::plan_held))]
    pub fn read_buffered(
        heap: Global,
        schema: &LineBuffer,
        plan: &LineBuffer,
    ) -> Result<Batch, AllocError>
        ensures { (cs ds : List ℕ) → schema.now ≡ held_of cs → plan.now ≡ held_of ds → IfOk result (λ batch. batch_of batch ≡ batch_read cs ds) }
    {
        let space = Space::new(heap)?;
        Batch::of(heap, Schema::read_buffered(space, schema), characters(plan))
    }

    // The schema that cases are loaded on.
    pub fn schema(&self) -> Option<&Schema>
        ensures { option_map parts (option_copied result) ≡ base_in (batch_of self.now) }
    {
        match self {
            Batch::Ready(ready) => Some(&ready.schema),
            Batch::Refused(_) => None,
        }
    }

    // The verdict on every case line, where there is no schema or no plan.
    pub fn refusal(&self) -> Option<Verdict>
        ensures { result ≡ refusal_in (batch_of self.now) }
    {
        match self {
            Batch::Ready(_) => None,
            Batch::Refused(reason) => Some(Verdict {
                refusal: Some(*reason),
                case: 0,
            }),
        }
    }
}
