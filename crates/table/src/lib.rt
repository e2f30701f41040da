// A history in a table without gaps: a purge frees the places of what it takes out.
#![tactic(auto)]

ghost use Rattle.std.specs.Prelude.{◌≡◌, length};
ghost use Rattle.history.specs.Stores.{fresh, refusal, cleared, add_answer, added, purge_answer, purged, PurgeBounds};
ghost use Rattle.table.specs.Tables.{table_view, Tight, table_within};

pub mod laws;
#[cfg(test)]
mod tests;

use history::{EntryKind, Full, NoPlace, Store, is_of};
use ids::IdSet;
use model::Entry;
use places::AppendList;

// The entries of a history, each in a place of its own.
#[derive(Drop)]
pub struct CompactedTable<'a> {
    entries: AppendList<'a, Entry>,
}

impl<'a> CompactedTable<'a> {
    // A table of these places, with no entries.
    pub fn over(row: &'a mut [Entry]) -> CompactedTable<'a>
        ensures view { table_view result ≡ fresh (length row.old) }
        ensures tight { Tight (table_view result) }
    {
        CompactedTable {
            entries: AppendList::over(row),
        }
    }
}

// A purge is free of cost. Beyond what every store promises, each place is free or holds an entry: so in every table.
impl Store for CompactedTable<'_> {
    type Cost = NoPlace;

    ghost view = { table_view };

    ghost within = { table_within };

    fn clear(&mut self)
        ensures after { table_view self.new ≡ cleared (table_view self.old) }
        ensures tight { Tight (table_view self.new) }
    {
        self.entries.clear();
    }

    fn add(&mut self, entry: Entry) -> Result<(), Full>
        ensures answer { result ≡ add_answer (table_view self.old) }
        ensures after { table_view self.new ≡ added entry (table_view self.old) }
        ensures unchanged { result ≡ refusal → self.new ≡ self.old }
        ensures tight { Tight (table_view self.new) }
    {
        self.entries.push(entry)
    }

    fn purge(&mut self, ids: IdSet) -> Result<(), Full>
        ensures answer { result ≡ purge_answer 0 (table_view self.old) }
        ensures after { table_view self.new ≡ purged 0 ids (table_view self.new).free (table_view self.old) }
        ensures bounds { PurgeBounds 0 ids (table_view self.new).free (table_view self.old) }
        ensures unchanged { result ≡ refusal → self.new ≡ self.old }
        ensures tight { Tight (table_view self.new) }
    {
        self.entries.purge(ids);
        Ok(())
    }

    fn place(&self, kind: EntryKind, id: u8) -> Option<usize> {
        self.entries
            .items()
            .iter()
            .rposition(|entry| is_of(*entry, kind, id))
    }

    fn len(&self) -> usize {
        self.entries.items().len()
    }

    fn entry(&self, place: usize) -> Option<Entry> {
        self.entries.items().get(place).copied()
    }
}
