// A plan: changes of a schema, carried out.
ghost use Rattle.std.specs.Prelude.{◌≡◌, true, [], map, Decides};
ghost use Rattle.schema.specs.Schemas.{parts};
ghost use Rattle.draft_rules.specs.Stages.{next_version};
ghost use Rattle.draft_rules.specs.Rules.{all_admitted};
ghost use Rattle.drafts.specs.Plans.{stages_after};

use crate::copying::{changed, renewed};
use crate::judging::judge;
use bounded::Bounded;
use changes::Change;
use draft_rules::ChangeRefusal;
use plan_record::RawChange;
use schema::schema::Schema;
use schema::space::Space;
use std::alloc::{AllocError, Global};

// Whether two schemas have the same row and edges.
fn is_same(one: &Schema, other: &Schema) -> bool
    ensures { Decides result (((parts one.now).row ≡ (parts other.now).row) × ((parts one.now).edges ≡ (parts other.now).edges)) }
{
    one.row() == other.row() && one.edges() == other.edges()
}

// The changes that were added, in order, and the schemas before and after each. No `impl Model`: proofs in the crates above
// read from a plan that its changes are admitted, and a model would hide this ghost field.
#[derive(Drop)]
pub struct Plan {
    changes: Bounded<Change, 16>,
    // the schema before the changes, with the version of the released one
    first: Schema,
    // the schemas after each of the changes, with that version too
    later: Vec<Schema>,
    // the version of the schema that the plan was made of
    base_version: u16,
    ghost admitted: { all_admitted first.row [] (parts first) changes ≡ true },
    ghost staged: { map parts later.items ≡ stages_after changes (parts first) },
    ghost renewed: { first.version ≡ next_version base_version },
}

impl Plan {
    ghost use Rattle.std.specs.Prelude.{◌<◌, ◌≤◌, ◌++◌, ◌∷◌, None, vec_len, vec_capacity, IfOk};
    ghost use Rattle.std.specs.Option.{option_map, option_copied};
    ghost use Rattle.draft_rules.specs.Stages.{changed_all, released};
    ghost use Rattle.draft_rules.specs.Rules.{refusal};
    ghost use Rattle.drafts.specs.Plans.{begun, stage_of, judged_for};
    ghost use Rattle.drafts.specs.Views.{planned};

    // A plan of no changes, with room for sixteen.
    pub(crate) fn begin(heap: Global, base: &Schema) -> Result<Plan, AllocError>
        ensures { IfOk result (λ plan. (planned plan ≡ begun (parts base.now)) × (16 ≤ vec_capacity plan.later)) }
    {
        let changes = Bounded::new(heap)?;
        let later = Vec::with_capacity(heap, 16)?;
        let first = renewed(Space::new(heap)?, base);
        Ok(Plan {
            changes,
            first,
            later,
            base_version: base.version(),
        })
    }

    // In their order.
    pub fn changes(&self) -> &[Change]
        ensures { result.now ≡ (planned self.now).changes }
    {
        self.changes.as_slice()
    }

    // The schema after the first `i` changes, with the version of the released one.
    pub fn stage(&self, i: usize) -> Option<&Schema>
        ensures { option_map parts (option_copied result) ≡ stage_of (planned self.now) i }
    {
        if i == 0 {
            Some(&self.first)
        } else {
            self.later.get(i - 1)
        }
    }

    // The schema after all changes.
    pub fn released(&self) -> &Schema
        ensures { parts result.now ≡ released (planned self.now).changes (planned self.now).base }
    {
        match self.later.last() {
            Some(stage) => stage,
            None => &self.first,
        }
    }

    // Whether the plan was made of this schema, in whole.
    pub fn is_of(&self, schema: &Schema) -> bool
        ensures { Decides result ((planned self.now).base ≡ parts schema.now) }
    {
        self.base_version == schema.version() && is_same(&self.first, schema)
    }

    // The change that four bytes spell, or why it may not come next.
    pub(crate) fn judge(&self, raw: RawChange) -> Result<Change, ChangeRefusal>
        ensures { result ≡ judged_for (planned self.now) raw }
    {
        judge(self.first.row(), self.changes(), self.released(), raw)
    }

    // Carries out one more change, in this space.
    pub(crate) fn lengthen(&mut self, change: Change, space: Space)
        requires room { vec_len self.old.later < vec_capacity self.old.later }
        requires admitted { refusal (planned self.old).base.row (planned self.old).changes (changed_all (planned self.old).changes (planned self.old).base) change ≡ None }
        ensures after { planned self.new ≡ record { base = (planned self.old).base; changes = (planned self.old).changes ++ change ∷ [] } }
        ensures room { vec_capacity self.new.later ≡ vec_capacity self.old.later }
    {
        let stage = changed(space, self.released(), change);
        self.later.push_reserved(stage);
        self.changes.push(change).unwrap();
    }
}
