// A case record, taken apart.
ghost use Rattle.std.specs.Prelude.{◌≡◌, ◌^◌, ◌<◌, ◌≤◌, map, length, MatchOption, slice_index_or};
ghost use Rattle.std.specs.List.{slice_get};
ghost use Rattle.case_record.specs.Entries.{entries_in, entry_from, zeros};
ghost use Rattle.case_record.specs.Readings.{ReadsTo};
ghost use Rattle.case_record.specs.Coming.{coming};

use crate::{CaseRecord, Entries, RawEntry};
use record::{Malformed, item};

// Takes a record apart, if it is a case record and just as long as its count says.
impl<'a> TryFrom<&'a [u8]> for CaseRecord<'a> {
    type Error = Malformed;

    ghost try_from_gives = { λ bytes r. ReadsTo bytes.now r };

    fn try_from(bytes: &'a [u8]) -> Result<CaseRecord<'a>, Malformed> {
        let [3, n3, n2, n1, n0, high, low, entries @ ..] = bytes else {
            return Err(Malformed);
        };
        if entries.len() != 3 * usize::from(u16::from_be_bytes([*high, *low])) {
            return Err(Malformed);
        }
        Ok(CaseRecord {
            number: u32::from_be_bytes([*n3, *n2, *n1, *n0]),
            entries,
        })
    }
}

// `len` and `entry` have twins in plan records: a trait with a constant for the size would only be longer than both.
impl<'a> CaseRecord<'a> {
    // The entries' bytes.
    #[tactic(auto, using(crate::proofs::Triples::entries_pieces))]
    fn pieces(&self) -> &'a [[u8; 3]]
        ensures { map entry_from result.now ≡ entries_in self.now.entries.now }
    {
        self.entries.as_chunks::<3>().0
    }

    // How many entries there are.
    pub fn len(&self) -> usize
        ensures { result ≡ length (entries_in self.now.entries.now) }
    {
        self.pieces().len()
    }

    // The entries in their order.
    pub fn iter(&self) -> Entries<'a>
        ensures items { coming result ≡ entries_in self.now.entries.now }
        ensures few { length (coming result) < 2 ^ 64 }
    {
        Entries {
            pieces: self.pieces().iter(),
        }
    }

    // The i-th entry; none past the end.
    pub fn entry(&self, i: usize) -> Option<RawEntry>
        ensures value { result ≡ slice_get (entries_in self.now.entries.now) i }
        ensures cases { MatchOption result (length (entries_in self.now.entries.now) ≤ i) (λ e. (i < length (entries_in self.now.entries.now)) × (e ≡ slice_index_or (entries_in self.now.entries.now) i zeros)) }
    {
        item(self.pieces(), i)
    }
}
