// The nodes of a loop's round.
ghost use Rattle.std.specs.Prelude.{◌≡◌, ℕ, ◌&&◌, [], MatchOption, nat_lt};
ghost use Rattle.ids.specs.Sets.{has};
ghost use Rattle.schema.specs.Reading.{among};
ghost use Rattle.schema.specs.Schemas.{parts};
ghost use Rattle.rounds.specs.Rounds.{between, in_round};

use ids::IdSet;
use model::Element;
use schema::schema::Schema;

// The elements between a loop's start and its test, if the schema has this test.
fn round(schema: &Schema, test: u8) -> Option<&[Element]>
    ensures { MatchOption result (between (parts schema.now).row test ≡ []) (λ xs. xs.now ≡ between (parts schema.now).row test) }
{
    let end = schema.place(test)?;
    let start = schema.position(end)?.block?;
    schema.row().get(usize::from(start) + 1..end)
}

// The ids of the nodes among these elements.
fn nodes_of(elements: &[Element]) -> IdSet
    ensures { (id : ℕ) → has result id ≡ (nat_lt id 64 && among elements.now id) }
{
    elements
        .iter()
        .fold(IdSet::empty(), |ids, element| ids.with(element.id()))
}

// The ids of the nodes between a loop's start and its test.
#[tactic(auto, using(crate::proofs::RoundSets::low_round))]
pub fn round_of(schema: &Schema, test: u8) -> IdSet
    ensures { (id : ℕ) → has result id ≡ in_round (parts schema.now).row test id }
{
    nodes_of(round(schema, test).unwrap_or(&[]))
}
