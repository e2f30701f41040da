// A sync edge that breaks a rule.
ghost use Rattle.std.specs.Prelude.{◌≡◌};
ghost use Rattle.model.specs.declared.refusal.SchemaRefusal.TheVariants.{Edge};

use model::refusal::SchemaRefusal;
use std::marker::Model;

// Its place in the list, and its source.
#[derive(Clone, Copy, PartialEq, Eq, Debug)]
pub struct BadEdge {
    pub place: usize,
    pub source: u8,
}

// A clause sees the two as a pair.
impl Model for BadEdge {
    ghost use Rattle.std.specs.Prelude.{ℕ};

    ghost Value = { ℕ × ℕ };

    ghost view = { λ e. (e.place, e.source) };

    ghost inverse = { λ p. record { place = p.0; source = p.1 } };
}

// A schema with such an edge is refused.
impl From<BadEdge> for SchemaRefusal {
    ghost from_gives = { λ edge refusal. refusal ≡ Edge edge.0 edge.1 };

    fn from(edge: BadEdge) -> SchemaRefusal
        ensures { result ≡ Edge edge.0 edge.1 }
    {
        SchemaRefusal::Edge {
            place: edge.place,
            source: edge.source,
        }
    }
}
