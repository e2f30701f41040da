// What an entry says, and of which node.
use crate::{EntryKind, NoPlace, OnePlace, PurgeCost, is_of};
use model::Entry;

#[test]
fn each_entry_says_its_kind(rt: HostRuntime) {
    assert_eq!(rt; EntryKind::from(Entry::Start(3)), EntryKind::Start);
    assert_eq!(rt; EntryKind::from(Entry::End(3)), EntryKind::End);
    assert_eq!(rt; EntryKind::from(Entry::Choose(3, 1)), EntryKind::Choose);
    assert_eq!(rt; EntryKind::from(Entry::Leave(3)), EntryKind::Leave);
}

// the branch that was chosen is neither kind nor node
#[test]
fn kind_and_node_both_count(rt: HostRuntime) {
    let chosen = Entry::Choose(3, 1);
    assert!(rt; is_of(chosen, EntryKind::Choose, 3));
    assert!(rt; !is_of(chosen, EntryKind::Choose, 1));
    assert!(rt; !is_of(chosen, EntryKind::Leave, 3));
    assert!(rt; is_of(Entry::Start(63), EntryKind::Start, 63));
}

#[test]
fn a_purge_costs_a_place_or_none(rt: HostRuntime) {
    assert_eq!(rt; NoPlace::PLACES, 0);
    assert_eq!(rt; OnePlace::PLACES, 1);
}
