// The order of a queue, and its last places.
use crate::{Queue, bring_queue_in_step};
use ids::IdSet;
use worklist::Worklist;

fn queue_of(ids: &[u8]) -> Queue {
    let mut queue = Queue::new();
    for id in ids {
        queue.offer(*id);
    }
    queue
}

#[test]
fn an_id_offered_again_stands_at_the_end(rt: HostRuntime) {
    let mut queue = queue_of(&[5, 3, 9, 5]);
    assert!(rt; queue.as_slice() == [5, 3, 9].as_slice());
    queue.withdraw(3);
    assert!(rt; queue.as_slice() == [5, 9].as_slice());
    queue.offer(3);
    queue.withdraw(4);
    assert!(rt; queue.as_slice() == [5, 9, 3].as_slice());
    queue.clear();
    assert_eq!(rt; queue.count(), 0);
}

#[test]
fn ids_end_at_63(rt: HostRuntime) {
    let queue = queue_of(&[64, 63, 255]);
    assert!(rt; queue.has(63) && !queue.has(64));
    assert!(rt; queue.as_slice() == [63].as_slice());
}

#[test]
fn a_full_queue_takes_what_it_has(rt: HostRuntime) {
    let mut queue = Queue::new();
    for id in 0..=255 {
        queue.offer(255 - id);
    }
    queue.offer(7);
    assert_eq!(rt; queue.count(), 64);
    assert_eq!(rt; queue.as_slice().first(), Some(&63));
    assert_eq!(rt; queue.as_slice().last(), Some(&0));
}

#[test]
fn what_stays_keeps_its_order(rt: HostRuntime) {
    let mut queue = queue_of(&[20, 9, 40, 4, 62]);
    let low = IdSet::only(1).union(IdSet::only(4));
    bring_queue_in_step(&mut queue, low.union(IdSet::only(9)).union(IdSet::only(63)));
    assert!(rt; queue.as_slice() == [9, 4, 1, 63].as_slice());
}
