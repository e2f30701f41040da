// Case records and the entries that they list.
#![tactic(auto)]

mod cases;
mod entries;
mod laws;
#[cfg(test)]
mod tests;

pub use entries::Entries;
pub use laws::reading_inverts_writing;
use model::{Entry, Unspelled};

// An entry as it stands in a record; nothing of it is judged yet.
#[derive(Clone, Copy, PartialEq, Eq, Debug)]
pub struct RawEntry {
    pub kind: u8,
    pub id: u8,
    pub branch: u8,
}

// An entry's bytes in their order.
impl From<[u8; 3]> for RawEntry {
    ghost use Rattle.std.specs.Prelude.{◌≡◌};
    ghost use Rattle.case_record.specs.Entries.{entry_from};

    ghost from_gives = { λ bytes entry. entry ≡ entry_from bytes };

    fn from(bytes: [u8; 3]) -> RawEntry {
        let [kind, id, branch] = bytes;
        RawEntry { kind, id, branch }
    }
}

// A raw entry says a step as its bytes do.
impl TryFrom<RawEntry> for Entry {
    type Error = Unspelled;

    ghost use Rattle.std.specs.Prelude.{◌≡◌};
    ghost use Rattle.model.specs.Entries.{entry_spelled, EntrySpells};

    ghost try_from_gives = { λ raw entry. entry ≡ entry_spelled (raw.kind, raw.id, raw.branch) };

    fn try_from(raw: RawEntry) -> Result<Entry, Unspelled>
        ensures value { result ≡ entry_spelled (raw.kind, raw.id, raw.branch) }
        ensures spelled { EntrySpells (raw.kind, raw.id, raw.branch) result }
    {
        Entry::try_from((raw.kind, raw.id, raw.branch))
    }
}

// A case record as it stands in a line. The entries are bare bytes and no pieces: anyone may build a record of any bytes, and
// pieces would ask more of them.
#[derive(Clone, Copy)]
pub struct CaseRecord<'a> {
    pub number: u32,
    // three bytes an entry, one after the other
    pub entries: &'a [u8],
}
