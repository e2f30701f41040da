use entry_log::{Log, LogRecord};
use history::{EntryKind, Store, comes_before, is_of};
use ids::IdSet;
use model::Entry;
use std::process::Abort;
use table::CompactedTable;

// what stands in a place before anything is kept there
const BLANK: Entry = Entry::Leave(0);

fn shows(entry: Option<Entry>, kind: EntryKind, id: u8) -> bool {
    entry.is_some_and(|entry| is_of(entry, kind, id))
}

// 1 is started, 2 is started and 1 ends
fn begins<S: Store>(rt: &impl Abort, store: &mut S) {
    assert!(rt; store.add(Entry::Start(1)).is_ok());
    assert!(rt; store.add(Entry::Start(2)).is_ok());
    assert!(rt; store.add(Entry::End(1)).is_ok());
    assert!(rt; store.place(EntryKind::Start, 1) == Some(0));
    assert!(rt; comes_before(&*store, (EntryKind::Start, 1), (EntryKind::Start, 2)));
}

// 1 is purged and started anew
fn starts_anew<S: Store>(rt: &impl Abort, store: &mut S) {
    assert!(rt; store.purge(IdSet::only(1)).is_ok());
    assert!(rt; store.place(EntryKind::End, 1).is_none());
    assert!(rt; store.add(Entry::Start(1)).is_ok());
    assert!(rt; store.place(EntryKind::Start, 1) == Some(1));
    assert!(rt; !comes_before(&*store, (EntryKind::Start, 1), (EntryKind::Start, 2)));
    assert!(rt; comes_before(&*store, (EntryKind::Start, 2), (EntryKind::Start, 1)));
}

// it stands behind 2, and nothing else stands there
fn ends_with_1<S: Store>(rt: &impl Abort, store: &S) {
    assert!(rt; store.len() == 2);
    assert!(rt; shows(store.entry(1), EntryKind::Start, 1));
    assert!(rt; store.entry(2).is_none());
}

#[test]
fn started_anew_in_a_log(rt: HostRuntime) {
    let mut row = [LogRecord::Noted(BLANK); 5];
    let mut log = Log::over(&mut row);
    begins(&rt, &mut log);
    starts_anew(&rt, &mut log);
    ends_with_1(&rt, &log);
    // three entries, a mark and one entry more
    assert!(rt; log.add(Entry::End(2)).is_err());
}

#[test]
fn started_anew_in_a_table(rt: HostRuntime) {
    let mut row = [BLANK; 3];
    let mut table = CompactedTable::over(&mut row);
    begins(&rt, &mut table);
    starts_anew(&rt, &mut table);
    ends_with_1(&rt, &table);
    assert!(rt; table.add(Entry::End(2)).is_ok());
}

#[test]
fn the_later_of_two(rt: HostRuntime) {
    let mut row = [BLANK; 3];
    let mut table = CompactedTable::over(&mut row);
    assert!(rt; table.add(Entry::Choose(4, 1)).is_ok());
    assert!(rt; table.add(Entry::Choose(4, 0)).is_ok());
    assert!(rt; table.place(EntryKind::Choose, 4) == Some(1));
}

#[test]
fn a_table_of_no_places(rt: HostRuntime) {
    let mut row = [BLANK; 0];
    let mut table = CompactedTable::over(&mut row);
    assert!(rt; table.add(Entry::Start(1)).is_err());
    assert!(rt; table.purge(IdSet::only(1)).is_ok());
    assert!(rt; table.len() == 0);
}

#[test]
fn a_table_of_one_place(rt: HostRuntime) {
    let mut row = [BLANK; 1];
    let mut table = CompactedTable::over(&mut row);
    assert!(rt; table.add(Entry::Start(1)).is_ok());
    assert!(rt; table.add(Entry::End(1)).is_err());
    assert!(rt; table.purge(IdSet::only(1)).is_ok());
    assert!(rt; table.add(Entry::Start(2)).is_ok());
}

#[test]
fn a_log_of_no_places(rt: HostRuntime) {
    let mut row = [LogRecord::Noted(BLANK); 0];
    let mut log = Log::over(&mut row);
    assert!(rt; log.add(Entry::Start(1)).is_err());
    assert!(rt; log.purge(IdSet::only(1)).is_err());
    assert!(rt; log.entry(0).is_none());
}

// a purge that would take nothing wants a place for its mark too
#[test]
fn a_full_log_refuses_every_purge(rt: HostRuntime) {
    let mut row = [LogRecord::Noted(BLANK); 1];
    let mut log = Log::over(&mut row);
    assert!(rt; log.add(Entry::Start(1)).is_ok());
    assert!(rt; log.purge(IdSet::empty()).is_err());
    assert!(rt; log.len() == 1);
    log.clear();
    assert!(rt; log.purge(IdSet::only(1)).is_ok());
    assert!(rt; log.add(Entry::Start(1)).is_err());
    assert!(rt; log.len() == 0);
}

// two entries and no more
fn fills<S: Store>(rt: &impl Abort, store: &mut S, id: u8) {
    assert!(rt; store.add(Entry::Start(id)).is_ok());
    assert!(rt; store.add(Entry::End(id)).is_ok());
    assert!(rt; store.add(Entry::Start(id)).is_err());
    assert!(rt; store.len() == 2);
}

#[test]
fn a_table_fills_again(rt: HostRuntime) {
    let mut row = [BLANK; 2];
    let mut table = CompactedTable::over(&mut row);
    fills(&rt, &mut table, 1);
    assert!(rt; table.purge(IdSet::only(1)).is_ok());
    fills(&rt, &mut table, 2);
}
