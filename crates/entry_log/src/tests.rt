// Marks among the entries of a log: no entries themselves, and they take only what came before.
use crate::{Log, LogRecord};
use history::{EntryKind, Full, Store};
use ids::IdSet;
use model::Entry;

#[test]
fn a_mark_is_no_entry(rt: HostRuntime) {
    let mut row = [LogRecord::Noted(Entry::Leave(0)); 3];
    let mut log = Log::over(&mut row);
    assert_eq!(rt; log.add(Entry::Start(1)), Ok(()));
    assert_eq!(rt; log.purge(IdSet::only(2)), Ok(()));
    assert_eq!(rt; log.add(Entry::Start(2)), Ok(()));
    assert_eq!(rt; log.len(), 2);
    assert_eq!(rt; log.place(EntryKind::Start, 2), Some(1));
    assert_eq!(rt; log.entry(1), Some(Entry::Start(2)));
    assert_eq!(rt; log.entry(2), None);
}

#[test]
fn each_mark_takes_what_came_before(rt: HostRuntime) {
    let mut row = [LogRecord::Noted(Entry::Leave(0)); 8];
    let mut log = Log::over(&mut row);
    assert!(rt; log.add(Entry::Start(1)).is_ok() && log.add(Entry::Start(2)).is_ok());
    assert_eq!(rt; log.purge(IdSet::only(1)), Ok(()));
    assert!(rt; log.add(Entry::Choose(1, 3)).is_ok() && log.add(Entry::End(2)).is_ok());
    assert_eq!(rt; log.purge(IdSet::only(2)), Ok(()));
    assert_eq!(rt; log.len(), 1);
    assert_eq!(rt; log.entry(0), Some(Entry::Choose(1, 3)));
    assert_eq!(rt; log.place(EntryKind::Start, 1), None);
    assert_eq!(rt; log.place(EntryKind::Choose, 1), Some(0));
}

#[test]
fn marks_take_places_until_it_is_cleared(rt: HostRuntime) {
    let mut row = [LogRecord::Noted(Entry::Leave(0)); 2];
    let mut log = Log::over(&mut row);
    assert!(rt; log.purge(IdSet::only(1)).is_ok() && log.purge(IdSet::only(1)).is_ok());
    assert_eq!(rt; log.add(Entry::Start(1)), Err(Full));
    log.clear();
    assert_eq!(rt; log.add(Entry::Start(1)), Ok(()));
    assert_eq!(rt; log.entry(0), Some(Entry::Start(1)));
}
