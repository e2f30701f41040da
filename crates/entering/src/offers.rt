// Who is offered to the users of a case.
ghost use Rattle.std.specs.Prelude.{◌≡◌, ℕ, ◌&&◌};
ghost use Rattle.ids.specs.Sets.{has, is_id};
ghost use Rattle.schema.specs.Schemas.{parts};
ghost use Rattle.marking.specs.States.{state_in};
ghost use Rattle.changes.specs.Effects.{is_activity};
ghost use Rattle.lives.specs.Offers.{is_activated, offers};

use facts::Facts;
use ids::IdSet;
use marking::states::Signals;
use model::{Element, State};
use schema::schema::Schema;

// The id of an element that is an Activated activity, if it is one.
fn offered_of(element: Element, signals: &Signals<'_>) -> Option<u8>
    ensures { (id : ℕ) → is_id result id ≡ (is_activity element id && is_activated (state_in (parts signals.now.schema.now).row (parts signals.now.schema.now).edges signals.now.facts.now id)) }
{
    match element {
        Element::Activity(id) if signals.state(id) == Some(State::Activated) => Some(id),
        _ => None,
    }
}

// The Activated activities.
pub fn activated_activities(schema: &Schema, facts: &Facts) -> IdSet
    ensures { (id : ℕ) → has result id ≡ offers (parts schema.now) facts.now id }
{
    let signals = Signals::of(schema, facts);
    let row = schema.row();
    let mut ids = IdSet::empty();
    // a loop: as a fold its proof didn't close, since the closure borrows the signals
    for element in row {
        ids = ids.with(offered_of(*element, &signals));
    }
    ids
}
