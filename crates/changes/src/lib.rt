// Changes of a schema: what a plan's bytes spell, and what each change makes of row and sync edges.
#![tactic(auto)]

ghost use Rattle.std.specs.Prelude.{◌≡◌};
ghost use Rattle.changes.specs.Spellings.{change_read, ChangeSpells};

pub mod laws;
#[cfg(test)]
mod tests;

use model::{Edge, Unspelled};
use plan_record::RawChange;

// One change of a schema's row or sync edges. Its gaps are those of the row before it.
#[derive(Clone, Copy, PartialEq, Eq, Debug)]
pub enum Change {
    DropEdge(Edge),
    // with the sync edges from it and to it
    Delete { id: u8 },
    Insert { id: u8, gap: u8 },
    // the items between the two gaps become branch 0 of a new AND block, the activity its branch 1
    InsertBeside { id: u8, from: u8, to: u8 },
    // as the last of the list
    AddEdge(Edge),
}

// A byte that a change does not use.
const UNUSED: u8 = 0xFF;

// An id or a gap may be any byte: whether it is one of the row is judged when the change is added to a plan.
impl TryFrom<RawChange> for Change {
    type Error = Unspelled;

    ghost try_from_gives = { λ raw change. change ≡ change_read raw };

    fn try_from(raw: RawChange) -> Result<Change, Unspelled>
        ensures value { result ≡ change_read raw }
        ensures spelled { ChangeSpells raw result }
    {
        match (raw.kind, raw.a, raw.b, raw.c) {
            (1, source, target, UNUSED) => Ok(Change::DropEdge(Edge { source, target })),
            (2, id, UNUSED, UNUSED) => Ok(Change::Delete { id }),
            (3, id, gap, UNUSED) => Ok(Change::Insert { id, gap }),
            (4, id, from, to) => Ok(Change::InsertBeside { id, from, to }),
            (5, source, target, UNUSED) => Ok(Change::AddEdge(Edge { source, target })),
            _ => Err(Unspelled),
        }
    }
}
