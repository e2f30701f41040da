// Layouts of two small rows.
use crate::{Layout, Position};
use model::{Element, Row};
use std::alloc::Global;
use std::test::Fail;

fn row(heap: Global, elements: &[Element]) -> Result<Row, Fail> {
    let mut row = Row::new(heap)?;
    for element in elements {
        if row.push(*element).is_err() {
            return Err(Fail::new("the row is full"));
        }
    }
    Ok(row)
}

// An AND block in a loop, and an activity after it.
fn looped(heap: Global) -> Result<Row, Fail> {
    let elements = [
        Element::LoopStart,
        Element::Activity(5),
        Element::AndSplit,
        Element::Activity(6),
        Element::Bar,
        Element::Activity(7),
        Element::AndJoin,
        Element::LoopEnd(63),
        Element::Activity(9),
    ];
    row(heap, &elements)
}

#[test]
fn places_are_found(rt: HostRuntime) -> Result<(), Fail> {
    let layout = Layout::of(&looped(rt.alloc())?);
    assert_eq!(rt; layout.place(5), Some(1));
    assert_eq!(rt; layout.place(63), Some(7));
    assert_eq!(rt; layout.place(8), None);
    assert_eq!(rt; layout.place(255), None);
    Ok(())
}

#[test]
fn positions_are_told(rt: HostRuntime) -> Result<(), Fail> {
    let layout = Layout::of(&looped(rt.alloc())?);
    let outside = Position {
        block: None,
        loop_start: None,
        branch: 0,
        depth: 0,
    };
    let in_loop = Position {
        block: Some(0),
        loop_start: Some(0),
        branch: 0,
        depth: 1,
    };
    let second_branch = Position {
        block: Some(2),
        loop_start: Some(0),
        branch: 1,
        depth: 2,
    };
    assert_eq!(rt; layout.position(0), Some(outside));
    assert_eq!(rt; layout.position(1), Some(in_loop));
    assert_eq!(rt;
        layout.position(4),
        Some(second_branch),
        "a bar begins the next branch"
    );
    assert_eq!(rt;
        layout.position(6),
        Some(second_branch),
        "a join ends the last"
    );
    assert_eq!(rt; layout.position(7), Some(in_loop));
    assert_eq!(rt; layout.position(8), Some(outside));
    assert_eq!(rt; layout.position(9), None);
    Ok(())
}

#[test]
fn blocks_end(rt: HostRuntime) -> Result<(), Fail> {
    let layout = Layout::of(&looped(rt.alloc())?);
    assert_eq!(rt; layout.end(0), Some(7));
    assert_eq!(rt; layout.end(2), Some(6));
    assert_eq!(rt; layout.end(3), None);
    assert_eq!(rt; layout.end(usize::MAX), None);
    Ok(())
}

#[test]
fn a_row_that_is_not_nested_has_a_layout(rt: HostRuntime) -> Result<(), Fail> {
    let elements = [Element::Bar, Element::XorJoin, Element::AndSplit];
    let layout = Layout::of(&row(rt.alloc(), &elements)?);
    assert_eq!(rt; layout.position(2), layout.position(0));
    assert_eq!(rt; layout.end(2), None);
    Ok(())
}
