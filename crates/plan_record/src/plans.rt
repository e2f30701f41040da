// A plan record, taken apart.
ghost use Rattle.std.specs.Prelude.{◌≡◌, ◌<◌, ◌≤◌, map, length, MatchOption, slice_index_or};
ghost use Rattle.std.specs.List.{slice_get};
ghost use Rattle.plan_record.specs.Changes.{change_from, zeros};
ghost use Rattle.plan_record.specs.Readings.{raw, ReadsTo};

use crate::{PlanRecord, RawChange};
use record::{Malformed, item};

// Takes a record apart, if it is a plan record and just as long as its count says.
impl<'a> TryFrom<&'a [u8]> for PlanRecord<'a> {
    type Error = Malformed;

    ghost try_from_gives = { λ bytes r. ReadsTo bytes.now r };

    fn try_from(bytes: &'a [u8]) -> Result<PlanRecord<'a>, Malformed> {
        match bytes {
            [2, count, changes @ ..] if changes.len() == 4 * usize::from(*count) => {
                Ok(PlanRecord {
                    changes: changes.as_chunks::<4>().0,
                })
            }
            _ => Err(Malformed),
        }
    }
}

impl<'a> PlanRecord<'a> {
    // The changes' bytes.
    pub fn pieces(&self) -> &'a [[u8; 4]]
        ensures { map change_from result.now ≡ (raw self.now).changes }
    {
        self.changes
    }

    // How many changes there are.
    pub fn len(&self) -> usize
        ensures { result ≡ length (raw self.now).changes }
    {
        self.pieces().len()
    }

    // The i-th change; none past the end.
    pub fn change(&self, i: usize) -> Option<RawChange>
        ensures value { result ≡ slice_get (raw self.now).changes i }
        ensures cases { MatchOption result (length (raw self.now).changes ≤ i) (λ x. (i < length (raw self.now).changes) × (x ≡ slice_index_or (raw self.now).changes i zeros)) }
    {
        item(self.pieces(), i)
    }
}
