// What a purge moves in a table, and what it frees.
use crate::CompactedTable;
use history::{EntryKind, Full, Store};
use ids::IdSet;
use model::Entry;

#[test]
fn a_purge_moves_the_others_up(rt: HostRuntime) {
    let mut row = [Entry::Leave(0); 4];
    let mut table = CompactedTable::over(&mut row);
    for entry in [
        Entry::Start(1),
        Entry::Start(2),
        Entry::End(1),
        Entry::End(2),
    ] {
        assert_eq!(rt; table.add(entry), Ok(()));
    }
    assert_eq!(rt; table.place(EntryKind::End, 2), Some(3));
    assert_eq!(rt; table.purge(IdSet::only(1)), Ok(()));
    assert_eq!(rt; table.len(), 2);
    assert_eq!(rt; table.place(EntryKind::Start, 2), Some(0));
    assert_eq!(rt; table.place(EntryKind::End, 2), Some(1));
    assert_eq!(rt; table.place(EntryKind::Start, 1), None);
    assert_eq!(rt; table.entry(1), Some(Entry::End(2)));
    assert_eq!(rt; table.entry(2), None);
}

#[test]
fn a_purge_of_strangers_frees_nothing(rt: HostRuntime) {
    let mut row = [Entry::Leave(0); 2];
    let mut table = CompactedTable::over(&mut row);
    assert!(rt; table.add(Entry::Start(1)).is_ok() && table.add(Entry::Choose(1, 0)).is_ok());
    assert_eq!(rt; table.purge(IdSet::only(2)), Ok(()));
    assert_eq!(rt; table.add(Entry::End(1)), Err(Full));
    assert_eq!(rt; table.entry(1), Some(Entry::Choose(1, 0)));
    table.clear();
    assert_eq!(rt; table.len(), 0);
    assert_eq!(rt; table.add(Entry::End(1)), Ok(()));
}
