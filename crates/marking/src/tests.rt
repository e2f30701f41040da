// One gap and one node at a time against the pass over the whole row, under all facts of a few schemas, also those that no
// run reaches.
use crate::marking::node_state;
use crate::nearby::signal_at;
use crate::states::Signals;
use facts::Facts;
use model::{Edge, EdgeList, Element, Fact, Row, Signal};
use schema::schema::Schema;
use std::alloc::Global;
use std::test::Fail;

const FACTS: [Fact; 7] = [
    Fact::Nothing,
    Fact::Begun,
    Fact::Ended,
    Fact::Left,
    Fact::Decided(0),
    Fact::Decided(1),
    Fact::Decided(2),
];

fn schema(heap: Global, elements: &[Element], listed: &[Edge]) -> Result<Schema, Fail> {
    let mut row = Row::new(heap)?;
    for element in elements {
        if row.push(*element).is_err() {
            return Err(Fail::new("the row is full"));
        }
    }
    let mut edges = EdgeList::new(heap)?;
    for edge in listed {
        if edges.push(*edge).is_err() {
            return Err(Fail::new("the list is full"));
        }
    }
    Schema::from_parts(1, row, edges).ok_or_else(|| Fail::new("no schema"))
}

// The facts of the nodes 1 to `nodes`, of which this is one of 7 to the power of `nodes`.
fn numbered(nodes: u8, number: u32) -> Facts {
    let mut facts = Facts::none();
    let mut rest = number;
    for id in 0..nodes {
        facts.note(id + 1, FACTS[(rest % 7) as usize]);
        rest /= 7;
    }
    facts
}

fn agrees(schema: &Schema, facts: &Facts) -> bool {
    let signals = Signals::of(schema, facts);
    for gap in 0..130 {
        if signal_at(schema, facts, gap) != signals.of_gap(gap) {
            return false;
        }
    }
    for id in 0..=u8::MAX {
        if node_state(schema, facts, id) != signals.state(id) {
            return false;
        }
    }
    true
}

// A decision between an activity with an AND block that has an empty branch, and a loop.
#[test]
fn blocks_in_branches_agree(rt: HostRuntime) -> Result<(), Fail> {
    let row = [
        Element::XorSplit(1),
        Element::Activity(2),
        Element::AndSplit,
        Element::Activity(3),
        Element::Bar,
        Element::AndJoin,
        Element::Bar,
        Element::LoopStart,
        Element::Activity(4),
        Element::LoopEnd(5),
        Element::XorJoin,
    ];
    let schema = schema(rt.alloc(), &row, &[])?;
    for number in 0..16_807 {
        assert!(rt; agrees(&schema, &numbered(5, number)), "at {number}");
    }
    Ok(())
}

// Blocks whose branches are empty at their heads and at their ends; edges from both sides into the last branch.
#[test]
fn empty_branches_and_edges_agree(rt: HostRuntime) -> Result<(), Fail> {
    let row = [
        Element::AndSplit,
        Element::AndSplit,
        Element::Bar,
        Element::Activity(1),
        Element::AndJoin,
        Element::Bar,
        Element::XorSplit(2),
        Element::Bar,
        Element::Activity(3),
        Element::Bar,
        Element::XorJoin,
        Element::Bar,
        Element::Activity(4),
        Element::AndJoin,
        Element::Activity(5),
    ];
    let edges = [
        Edge {
            source: 1,
            target: 4,
        },
        Edge {
            source: 3,
            target: 4,
        },
    ];
    let schema = schema(rt.alloc(), &row, &edges)?;
    for number in 0..16_807 {
        assert!(rt; agrees(&schema, &numbered(5, number)), "at {number}");
    }
    Ok(())
}

// Decision 2 in the first branch of decision 1, which is decided for the second.
#[test]
fn the_innermost_decision_tells(rt: HostRuntime) -> Result<(), Fail> {
    let row = [
        Element::XorSplit(1),
        Element::XorSplit(2),
        Element::Activity(3),
        Element::Bar,
        Element::XorJoin,
        Element::Bar,
        Element::XorJoin,
    ];
    let schema = schema(rt.alloc(), &row, &[])?;
    let mut facts = Facts::none();
    facts.note(1, Fact::Decided(1));
    assert_eq!(rt; signal_at(&schema, &facts, 2), Signal::False);
    // no run decides what is skipped
    facts.note(2, Fact::Decided(0));
    assert_eq!(rt; signal_at(&schema, &facts, 2), Signal::True);
    assert_eq!(rt; signal_at(&schema, &facts, 4), Signal::False);
    assert_eq!(rt; signal_at(&schema, &facts, 5), Signal::False);
    assert_eq!(rt; signal_at(&schema, &facts, 6), Signal::True);
    assert_eq!(rt; signal_at(&schema, &facts, 7), Signal::True);
    assert_eq!(rt; signal_at(&schema, &facts, 8), Signal::None);
    for number in 0..343 {
        assert!(rt; agrees(&schema, &numbered(3, number)), "at {number}");
    }
    Ok(())
}
