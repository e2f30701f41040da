// A history in a log: nothing is taken out, and a purge is one more record.
#![tactic(auto)]

ghost use Rattle.std.specs.Prelude.{◌≡◌, ◌+◌, ◌^◌, ◌<◌, length, reverse, Ok};
ghost use Rattle.history.specs.Stores.{fresh, refusal, purge_answer, purged, PurgeBounds};
ghost use Rattle.entry_log.specs.Backwards.{latest};
ghost use Rattle.entry_log.specs.Logs.{log_view, log_within};

mod records;
#[cfg(test)]
mod tests;

use history::{EntryKind, Full, OnePlace, Store, is_of};
use ids::IdSet;
use model::Entry;
use places::AppendList;
use records::LatestFirst;

// One place of a log.
#[derive(Clone, Copy)]
pub enum LogRecord {
    Noted(Entry),
    // of a purge: it takes the earlier entries of these nodes
    Purged(IdSet),
}

// All that was noted, and a mark for each purge.
#[derive(Drop)]
pub struct Log<'a> {
    records: AppendList<'a, LogRecord>,
}

impl<'a> Log<'a> {
    // A log of these places, with no entries.
    pub fn over(row: &'a mut [LogRecord]) -> Log<'a>
        ensures { log_view result ≡ fresh (length row.old) }
    {
        Log {
            records: AppendList::over(row),
        }
    }

    fn latest_first(&self) -> LatestFirst<'_>
        ensures items { latest result ≡ reverse (log_view self.now).list }
        ensures few { length (latest result) < 2 ^ 64 }
    {
        LatestFirst::of(self.records.items())
    }
}

// A purge needs a place for its mark, and an accepted one takes just that place.
impl Store for Log<'_> {
    type Cost = OnePlace;

    ghost view = { log_view };

    ghost within = { log_within };

    fn clear(&mut self) {
        self.records.clear();
    }

    fn add(&mut self, entry: Entry) -> Result<(), Full> {
        self.records.push(LogRecord::Noted(entry))
    }

    fn purge(&mut self, ids: IdSet) -> Result<(), Full>
        ensures answer { result ≡ purge_answer 1 (log_view self.old) }
        ensures after { log_view self.new ≡ purged 1 ids (log_view self.new).free (log_view self.old) }
        ensures bounds { PurgeBounds 1 ids (log_view self.new).free (log_view self.old) }
        ensures unchanged { result ≡ refusal → self.new ≡ self.old }
        ensures cost { result ≡ Ok tt → (log_view self.new).free + 1 ≡ (log_view self.old).free }
    {
        self.records.push(LogRecord::Purged(ids))
    }

    fn place(&self, kind: EntryKind, id: u8) -> Option<usize> {
        let behind = self
            .latest_first()
            .position(|entry| is_of(entry, kind, id))?;
        Some(self.len() - 1 - behind)
    }

    fn len(&self) -> usize {
        self.latest_first().count()
    }

    fn entry(&self, place: usize) -> Option<Entry> {
        // how many entries stand behind this place, in two steps since `place + 1` need not fit
        let behind = self.len().checked_sub(place)?.checked_sub(1)?;
        self.latest_first().nth(behind)
    }
}
