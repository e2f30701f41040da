// The edges of a board, and a board that held something else.
use crate::{Board, Worklist, bring_in_step};
use ids::IdSet;

#[test]
fn ids_end_at_63(rt: HostRuntime) {
    let mut board = Board::new();
    board.offer(63);
    board.offer(64);
    assert!(rt; board.has(63));
    assert!(rt; !board.has(64));
    assert_eq!(rt; board.count(), 1);
    board.withdraw(64);
    assert_eq!(rt; board.count(), 1);
    board.withdraw(63);
    assert_eq!(rt; board.count(), 0);
}

#[test]
fn strange_ids_go(rt: HostRuntime) {
    let mut board = Board::new();
    for id in 0..64 {
        board.offer(id);
    }
    assert_eq!(rt; board.count(), 64);
    bring_in_step(&mut board, IdSet::only(5).union(IdSet::only(63)));
    assert_eq!(rt; board.count(), 2);
    assert!(rt; board.has(5) && board.has(63));
    bring_in_step(&mut board, IdSet::only(0));
    assert!(rt; board.has(0) && !board.has(5));
    board.clear();
    assert_eq!(rt; board.count(), 0);
}
