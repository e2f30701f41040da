// A schema and a plan of it.
ghost use Rattle.std.specs.Prelude.{◌≡◌};
ghost use Rattle.schema.specs.Schemas.{parts};
ghost use Rattle.drafts.specs.Views.{base_of};

use drafts::plan::Plan;
use schema::schema::Schema;

// Cases are loaded on the schema and moved by the plan, which holds its base under the version of the released schema only.
#[derive(Drop)]
pub struct Ready {
    pub(crate) schema: Schema,
    pub(crate) plan: Plan,
    ghost base: { parts schema ≡ base_of plan },
}
