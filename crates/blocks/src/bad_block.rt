// A block that does not nest.
ghost use Rattle.std.specs.Prelude.{◌≡◌};
ghost use Rattle.model.specs.declared.refusal.SchemaRefusal.TheVariants.{Block};

use model::refusal::SchemaRefusal;
use std::marker::Model;

// The place at which no continuation of the row can mend it.
#[derive(Clone, Copy, PartialEq, Eq, Debug)]
pub struct BadBlock {
    pub place: usize,
}

// A clause sees the place.
impl Model for BadBlock {
    ghost use Rattle.std.specs.Prelude.{ℕ};

    ghost Value = { ℕ };

    ghost view = { λ b. b.place };

    ghost inverse = { λ n. record { place = n } };
}

// A schema with such a block is refused.
impl From<BadBlock> for SchemaRefusal {
    ghost from_gives = { λ block refusal. refusal ≡ Block block };

    fn from(block: BadBlock) -> SchemaRefusal
        ensures { result ≡ Block block }
    {
        SchemaRefusal::Block { place: block.place }
    }
}
