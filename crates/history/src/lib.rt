// What a case's history is, and what keeps it.
#![tactic(auto)]

ghost use Rattle.std.specs.Prelude.{◌≡◌, ℕ, ◌+◌, ◌≤◌, length};
ghost use Rattle.std.proofs.Common.{lit≤};
ghost use Rattle.std.specs.List.{slice_get};
ghost use Rattle.history.specs.Entries.{kind_of, is_of, last_place, before};
ghost use Rattle.history.specs.Stores.{StoreView, refusal, cleared, add_answer, added, purge_answer, purged, PurgeBounds};

#[cfg(test)]
mod tests;

pub use bounded::Full;
use ids::IdSet;
use model::Entry;

// What an entry says, apart from its node.
// Kind and node stand side by side where an entry is asked for: a struct of both would be built only to ask.
#[derive(Clone, Copy, PartialEq, Eq, Debug)]
pub enum EntryKind {
    Start,
    End,
    Choose,
    Leave,
}

impl From<Entry> for EntryKind {
    ghost from_gives = { λ entry kind. kind ≡ kind_of entry };

    fn from(entry: Entry) -> EntryKind {
        match entry {
            Entry::Start(_) => EntryKind::Start,
            Entry::End(_) => EntryKind::End,
            Entry::Choose(..) => EntryKind::Choose,
            Entry::Leave(_) => EntryKind::Leave,
        }
    }
}

// How many places a purge costs. It stands in a trait of its own, since a kind of store that borrows its places
// can't give a constant that clauses cite.
pub trait PurgeCost {
    const PLACES: usize;

    ghost PLACES: { ℕ };

    ghost low: { PLACES ≤ 1 };
}

// A purge costs no place. The two are types of their own: of a const parameter only 0 and 1 keep `low`, so it would need
// both impls too.
pub struct NoPlace;

impl PurgeCost for NoPlace {
    const PLACES: usize = 0;

    ghost PLACES = { 0 };

    ghost low = { lit≤ tt };
}

// A purge costs one place.
pub struct OnePlace;

impl PurgeCost for OnePlace {
    const PLACES: usize = 1;

    ghost PLACES = { 1 };

    ghost low = { lit≤ tt };
}

// A list of entries that grows in a fixed number of places. A purge takes the entries of some nodes out at its
// cost; the places that they held may come free.
pub trait Store {
    type Cost: PurgeCost;

    // what the store means
    ghost view: { Self → StoreView };

    ghost within: { (s : Self) → (view s).free + length (view s).list ≤ (view s).capacity };

    fn clear(&mut self)
        ensures after { view self.new ≡ cleared (view self.old) };

    // Puts an entry at the end of the list.
    fn add(&mut self, entry: Entry) -> Result<(), Full>
        ensures answer { result ≡ add_answer (view self.old) }
        ensures after { view self.new ≡ added entry (view self.old) }
        ensures unchanged { result ≡ refusal → self.new ≡ self.old };

    // Takes the entries of these nodes out of the list.
    fn purge(&mut self, ids: IdSet) -> Result<(), Full>
        ensures answer { result ≡ purge_answer Self.Cost.PLACES (view self.old) }
        ensures after { view self.new ≡ purged Self.Cost.PLACES ids (view self.new).free (view self.old) }
        ensures bounds { PurgeBounds Self.Cost.PLACES ids (view self.new).free (view self.old) }
        ensures unchanged { result ≡ refusal → self.new ≡ self.old };

    // The last place of an entry of a kind and a node.
    fn place(&self, kind: EntryKind, id: u8) -> Option<usize>
        ensures answer { result ≡ last_place kind id (view self.now).list };

    fn len(&self) -> usize
        ensures answer { result ≡ length (view self.now).list };

    fn entry(&self, place: usize) -> Option<Entry>
        ensures answer { result ≡ slice_get (view self.now).list place };
}

// Whether an entry is of a kind and a node.
pub fn is_of(entry: Entry, kind: EntryKind, id: u8) -> bool
    ensures { result ≡ is_of kind id entry }
{
    entry.id() == id && EntryKind::from(entry) == kind
}

// Whether the last entry of one kind and node stands before the last of another.
pub fn comes_before<S: Store>(store: &S, earlier: (EntryKind, u8), later: (EntryKind, u8)) -> bool
    ensures { result ≡ before (last_place earlier.0 earlier.1 (S.view store.now).list) (last_place later.0 later.1 (S.view store.now).list) }
{
    // the later one is looked for only where the earlier is there
    let Some(first) = store.place(earlier.0, earlier.1) else {
        return false;
    };
    store
        .place(later.0, later.1)
        .is_some_and(|second| first < second)
}
