// Followers in rows of each kind of block.
use crate::FollowerTable;
use ids::IdSet;
use model::{Element, Row};
use std::alloc::Global;
use std::test::Fail;

fn row(heap: Global, elements: &[Element]) -> Result<Row, Fail> {
    let mut row = Row::new(heap)?;
    for element in elements {
        push(&mut row, *element)?;
    }
    Ok(row)
}

fn push(row: &mut Row, element: Element) -> Result<(), Fail> {
    row.push(element).map_err(|_| Fail::new("the row is full"))
}

fn table_of(heap: Global, elements: &[Element]) -> Result<FollowerTable, Fail> {
    Ok(FollowerTable::of(&row(heap, elements)?))
}

// Whether these are the followers of a gap, each and no more.
fn are(table: &FollowerTable, gap: usize, nodes: &[u8]) -> bool {
    let mut set = IdSet::empty();
    for id in nodes {
        set = set.with(Some(*id));
    }
    table.at(gap) == set
}

#[test]
fn a_row_without_blocks_has_its_next_node(rt: HostRuntime) -> Result<(), Fail> {
    let table = table_of(rt.alloc(), &[Element::Activity(7), Element::Activity(63)])?;
    assert!(rt; are(&table, 0, &[7]));
    assert!(rt; are(&table, 1, &[63]));
    assert!(rt; are(&table, 2, &[]), "the row's end");
    assert!(rt; are(&table, 3, &[]), "past the end");
    assert!(rt; are(&table, usize::MAX, &[]));
    Ok(())
}

#[test]
fn an_empty_row_and_a_high_id_have_none(rt: HostRuntime) -> Result<(), Fail> {
    assert!(rt; are(&table_of(rt.alloc(), &[])?, 0, &[]));
    assert!(rt;
        are(&table_of(rt.alloc(), &[Element::Activity(64)])?, 0, &[]),
        "an id that no set has"
    );
    Ok(())
}

// Activity 1, then 2 beside 3, then 4.
#[test]
fn an_and_split_has_the_heads_of_its_branches(rt: HostRuntime) -> Result<(), Fail> {
    let elements = [
        Element::Activity(1),
        Element::AndSplit,
        Element::Activity(2),
        Element::Bar,
        Element::Activity(3),
        Element::AndJoin,
        Element::Activity(4),
    ];
    let table = table_of(rt.alloc(), &elements)?;
    assert!(rt; are(&table, 0, &[1]));
    assert!(rt; are(&table, 1, &[2, 3]));
    assert!(rt; are(&table, 2, &[2]));
    assert!(rt; are(&table, 3, &[4]), "a bar leads past the join");
    assert!(rt; are(&table, 4, &[3]));
    assert!(rt; are(&table, 5, &[4]));
    assert!(rt; are(&table, 6, &[4]));
    assert!(rt; are(&table, 7, &[]));
    Ok(())
}

// An AND block of an empty branch and activity 1, at the end of a branch beside an empty one; then 2.
#[test]
fn an_empty_branch_leads_past_every_join(rt: HostRuntime) -> Result<(), Fail> {
    let elements = [
        Element::AndSplit,
        Element::AndSplit,
        Element::Bar,
        Element::Activity(1),
        Element::AndJoin,
        Element::Bar,
        Element::AndJoin,
        Element::Activity(2),
    ];
    let table = table_of(rt.alloc(), &elements)?;
    assert!(rt; are(&table, 0, &[1, 2]));
    assert!(rt; are(&table, 1, &[1, 2]));
    assert!(rt; are(&table, 2, &[2]), "past both joins");
    assert!(rt; are(&table, 3, &[1]));
    assert!(rt; are(&table, 4, &[2]));
    assert!(rt; are(&table, 5, &[2]));
    assert!(rt; are(&table, 6, &[2]));
    let shorter = table_of(rt.alloc(), &elements[..7])?;
    assert!(rt;
        are(&shorter, 0, &[1]),
        "and where the row ends behind them"
    );
    assert!(rt; are(&shorter, 2, &[]));
    Ok(())
}

// An empty loop of test 8, then one of activity 1 and test 9, then 2.
#[test]
fn a_loop_ends_at_its_test(rt: HostRuntime) -> Result<(), Fail> {
    let elements = [
        Element::LoopStart,
        Element::LoopEnd(8),
        Element::LoopStart,
        Element::Activity(1),
        Element::LoopEnd(9),
        Element::Activity(2),
    ];
    let table = table_of(rt.alloc(), &elements)?;
    assert!(rt; are(&table, 0, &[8]), "an empty loop has its test");
    assert!(rt; are(&table, 1, &[8]));
    assert!(rt; are(&table, 2, &[1]));
    assert!(rt; are(&table, 3, &[1]));
    assert!(rt; are(&table, 4, &[9]));
    assert!(rt; are(&table, 5, &[2]));
    Ok(())
}

// Decision 5 of activities 6 and 7, then 8. Facts are not asked: the end of a branch leads on, whichever was decided.
#[test]
fn an_xor_split_has_its_decision_alone(rt: HostRuntime) -> Result<(), Fail> {
    let elements = [
        Element::XorSplit(5),
        Element::Activity(6),
        Element::Bar,
        Element::Activity(7),
        Element::XorJoin,
        Element::Activity(8),
    ];
    let table = table_of(rt.alloc(), &elements)?;
    assert!(rt; are(&table, 0, &[5]));
    assert!(rt; are(&table, 1, &[6]));
    assert!(rt; are(&table, 2, &[8]));
    assert!(rt; are(&table, 3, &[7]));
    assert!(rt; are(&table, 4, &[8]));
    assert!(rt; are(&table, 5, &[8]));
    Ok(())
}

// Fourteen AND blocks of eight empty branches each, and activity 3 behind them.
#[test]
fn empty_branches_are_passed_once(rt: HostRuntime) -> Result<(), Fail> {
    let mut row = Row::new(rt.alloc())?;
    for _ in 0..14 {
        push(&mut row, Element::AndSplit)?;
        for _ in 0..7 {
            push(&mut row, Element::Bar)?;
        }
        push(&mut row, Element::AndJoin)?;
    }
    assert!(rt; are(&FollowerTable::of(&row), 0, &[]));
    push(&mut row, Element::Activity(3))?;
    let table = FollowerTable::of(&row);
    assert!(rt; are(&table, 0, &[3]));
    assert!(rt; are(&table, 4, &[3]));
    assert!(rt; are(&table, 126, &[3]));
    Ok(())
}

#[test]
fn a_row_that_is_not_nested_has_followers(rt: HostRuntime) -> Result<(), Fail> {
    let elements = [Element::Bar, Element::AndSplit, Element::Activity(1)];
    let table = table_of(rt.alloc(), &elements)?;
    assert!(rt; are(&table, 0, &[1]));
    assert!(rt; are(&table, 2, &[1]));
    Ok(())
}
