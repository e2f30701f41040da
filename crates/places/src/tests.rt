// The edges of a list in lent places, and what a purge leaves of it.
use crate::{AppendList, compact};
use history::Full;
use ids::IdSet;
use model::Entry;

#[test]
fn a_list_fills_its_places(rt: HostRuntime) {
    let mut row = [0u8; 2];
    let mut list = AppendList::over(&mut row);
    assert_eq!(rt; list.usage(), (0, 2));
    assert_eq!(rt; list.push(7), Ok(()));
    assert_eq!(rt; list.usage(), (1, 1));
    assert_eq!(rt; list.push(8), Ok(()));
    assert_eq!(rt; list.push(9), Err(Full));
    assert!(rt; list.items() == [7, 8].as_slice());
    assert_eq!(rt; list.usage(), (2, 0));
}

#[test]
fn a_list_of_no_places_is_full(rt: HostRuntime) {
    let mut row = [0u8; 0];
    let mut list = AppendList::over(&mut row);
    assert_eq!(rt; list.push(7), Err(Full));
    assert_eq!(rt; list.usage(), (0, 0));
}

#[test]
fn what_is_cut_off_comes_free(rt: HostRuntime) {
    let mut row = [7u8, 8, 9];
    let mut list = AppendList::over(&mut row);
    assert!(rt; list.items().is_empty());
    assert!(rt; list.push(1).is_ok() && list.push(2).is_ok() && list.push(3).is_ok());
    list.truncate(1);
    assert_eq!(rt; list.usage(), (1, 2));
    assert!(rt; list.push(4).is_ok());
    list.truncate(5);
    assert!(rt; list.items() == [1, 4].as_slice());
    list.clear();
    assert_eq!(rt; list.usage(), (0, 3));
}

#[test]
fn a_purge_closes_the_gaps(rt: HostRuntime) {
    let mut row = [Entry::Leave(0); 5];
    let mut list = AppendList::over(&mut row);
    for entry in [
        Entry::Start(1),
        Entry::Start(2),
        Entry::End(1),
        Entry::Choose(3, 1),
    ] {
        assert!(rt; list.push(entry).is_ok());
    }
    list.purge(IdSet::only(1).union(IdSet::only(9)));
    assert!(rt; list.items() == [Entry::Start(2), Entry::Choose(3, 1)].as_slice());
    assert_eq!(rt; list.usage(), (2, 3));
}

#[test]
fn what_lies_behind_stays(rt: HostRuntime) {
    let mut entries = [Entry::Start(1), Entry::End(1), Entry::Start(2)];
    assert_eq!(rt; compact(&mut entries, IdSet::only(1)), 1);
    assert!(rt; entries == [Entry::Start(2), Entry::End(1), Entry::Start(2)]);
}
