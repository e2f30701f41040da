// An element of a record that is none, or whose id was used.
ghost use Rattle.std.specs.Prelude.{◌≡◌};
ghost use Rattle.model.specs.declared.refusal.SchemaRefusal.TheVariants.{Element};

use model::refusal::SchemaRefusal;
use std::marker::Model;

// Its place in the record. A type beside `BadBlock`, since the two become different refusals: one type with a mark of
// which it is would be no plainer.
#[derive(Clone, Copy, PartialEq, Eq, Debug)]
pub(crate) struct BadElement {
    pub(crate) place: usize,
}

// A clause sees the place.
impl Model for BadElement {
    ghost use Rattle.std.specs.Prelude.{ℕ};

    ghost Value = { ℕ };

    ghost view = { λ b. b.place };

    ghost inverse = { λ n. record { place = n } };
}

// A schema with such an element is refused.
impl From<BadElement> for SchemaRefusal {
    ghost from_gives = { λ element refusal. refusal ≡ Element element };

    fn from(element: BadElement) -> SchemaRefusal
        ensures { result ≡ Element element }
    {
        SchemaRefusal::Element {
            place: element.place,
        }
    }
}
