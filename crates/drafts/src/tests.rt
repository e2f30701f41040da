// Each refusal at its boundary, and what plans hold.
use crate::draft::Draft;
use crate::plan::Plan;
use changes::Change;
use draft_rules::{ChangeRefusal, PlanRefusal};
use model::{Edge, EdgeList, Element, Row};
use plan_record::RawChange;
use schema::schema::Schema;
use std::alloc::Global;
use std::test::Fail;

// a gap or byte that is none
const N: u8 = 0xFF;

// 1, then 2 before 3 beside 4, then decision 5 between 6 and nothing, then a loop with test 8 of 7, and 9 at the end
const ROW: [Element; 16] = [
    Element::Activity(1),
    Element::AndSplit,
    Element::Activity(2),
    Element::Activity(3),
    Element::Bar,
    Element::Activity(4),
    Element::AndJoin,
    Element::XorSplit(5),
    Element::Activity(6),
    Element::Bar,
    Element::XorJoin,
    Element::LoopStart,
    Element::Activity(7),
    Element::LoopEnd(8),
    Element::Activity(9),
    Element::Activity(63),
];

// two branches of eight activities
const BRANCHES: u8 = 8;

fn edge(source: u8, target: u8) -> Edge {
    Edge { source, target }
}

fn schema_of(
    heap: Global,
    version: u16,
    elements: &[Element],
    edges: &[Edge],
) -> Result<Schema, Fail> {
    let mut row = Row::new(heap)?;
    for element in elements {
        row.push(*element)?;
    }
    let mut list = EdgeList::new(heap)?;
    for edge in edges {
        list.push(*edge)?;
    }
    Ok(Schema::from_parts(version, row, list).ok_or("no schema")?)
}

// A draft of a schema with the row above and a sync edge from 2 to 4.
fn begun(heap: Global) -> Result<Draft, Fail> {
    let base = schema_of(heap, 1, &ROW, &[edge(2, 4)])?;
    Ok(Draft::begin(heap, &base)?)
}

// So many empty AND blocks, and activities 1 and 2.
fn blocks(heap: Global, count: usize) -> Result<Schema, Fail> {
    let mut row = Row::new(heap)?;
    for _ in 0..count {
        row.push(Element::AndSplit)?;
        row.push(Element::Bar)?;
        row.push(Element::AndJoin)?;
    }
    row.push(Element::Activity(1))?;
    row.push(Element::Activity(2))?;
    Ok(Schema::from_parts(1, row, EdgeList::new(heap)?).ok_or("no schema")?)
}

// Activities 0 to 7 beside 8 to 15, with edges from so many of the first to all of the others.
fn joined(heap: Global, sources: u8) -> Result<Schema, Fail> {
    let mut row = Row::new(heap)?;
    row.push(Element::AndSplit)?;
    for id in 0..BRANCHES {
        row.push(Element::Activity(id))?;
    }
    row.push(Element::Bar)?;
    for id in BRANCHES..2 * BRANCHES {
        row.push(Element::Activity(id))?;
    }
    row.push(Element::AndJoin)?;
    let mut edges = EdgeList::new(heap)?;
    for source in 0..sources {
        for target in BRANCHES..2 * BRANCHES {
            edges.push(edge(source, target))?;
        }
    }
    Ok(Schema::from_parts(1, row, edges).ok_or("no schema")?)
}

fn add(draft: &mut Draft, kind: u8, a: u8, b: u8, c: u8) -> Result<(), PlanRefusal> {
    draft.add(RawChange { kind, a, b, c })
}

fn refused(place: usize, id: u8, refusal: ChangeRefusal) -> Result<(), PlanRefusal> {
    Err(PlanRefusal::Change { place, id, refusal })
}

#[test]
fn bytes_that_spell_no_change_are_refused(rt: HostRuntime) -> Result<(), Fail> {
    let mut draft = begun(rt.alloc())?;
    for (kind, a, b, c) in [
        (0, 1, N, N),
        (6, 1, N, N),
        (1, 2, 4, 0),
        (2, 1, 0, N),
        (2, 1, N, 0),
        (3, 10, 0, 0),
        (5, 3, 4, 0),
    ] {
        assert_eq!(rt;
            add(&mut draft, kind, a, b, c),
            refused(0, a, ChangeRefusal::Form),
            "kind {kind}"
        );
    }
    Ok(())
}

#[test]
fn ids_end_at_63(rt: HostRuntime) -> Result<(), Fail> {
    let mut draft = begun(rt.alloc())?;
    for (kind, a, b, c) in [
        (1, 64, 4, N),
        (1, 2, 64, N),
        (2, 64, N, N),
        (3, 64, 0, N),
        (4, 64, 0, 1),
        (5, 64, 4, N),
        (5, 2, 64, N),
    ] {
        assert_eq!(rt;
            add(&mut draft, kind, a, b, c),
            refused(0, a, ChangeRefusal::Form),
            "kind {kind}"
        );
    }
    assert_eq!(rt;
        add(&mut draft, 1, 63, 4, N),
        refused(0, 63, ChangeRefusal::Missing)
    );
    assert_eq!(rt; add(&mut draft, 2, 63, N, N), Ok(()));
    assert_eq!(rt; add(&mut draft, 3, 62, 0, N), Ok(()));
    Ok(())
}

#[test]
fn what_takes_out_comes_first(rt: HostRuntime) -> Result<(), Fail> {
    let heap = rt.alloc();
    for (kind, a, b, c) in [(3, 10, 0, N), (4, 10, 0, 1), (5, 3, 4, N)] {
        let mut draft = begun(heap)?;
        assert_eq!(rt; add(&mut draft, 2, 9, N, N), Ok(()));
        assert_eq!(rt; add(&mut draft, 1, 2, 4, N), Ok(()));
        assert_eq!(rt; add(&mut draft, kind, a, b, c), Ok(()), "kind {kind}");
        // refused as such before what is missing is looked for
        assert_eq!(rt;
            add(&mut draft, 2, 50, N, N),
            refused(3, 50, ChangeRefusal::Form)
        );
        assert_eq!(rt;
            add(&mut draft, 2, 1, N, N),
            refused(3, 1, ChangeRefusal::Form)
        );
        assert_eq!(rt;
            add(&mut draft, 1, 2, 4, N),
            refused(3, 2, ChangeRefusal::Form)
        );
    }
    Ok(())
}

#[test]
fn gaps_lie_in_the_row(rt: HostRuntime) -> Result<(), Fail> {
    let mut draft = begun(rt.alloc())?;
    assert_eq!(rt;
        add(&mut draft, 3, 10, N, N),
        refused(0, 10, ChangeRefusal::Missing)
    );
    assert_eq!(rt;
        add(&mut draft, 3, 10, 17, N),
        refused(0, 10, ChangeRefusal::Missing)
    );
    assert_eq!(rt; add(&mut draft, 3, 10, 16, N), Ok(()));
    // the gaps are those of the row before the change
    assert_eq!(rt;
        add(&mut draft, 3, 11, 18, N),
        refused(1, 11, ChangeRefusal::Missing)
    );
    assert_eq!(rt; add(&mut draft, 3, 11, 17, N), Ok(()));
    Ok(())
}

#[test]
fn only_activities_and_edges_that_are_there_are_taken_out(rt: HostRuntime) -> Result<(), Fail> {
    let mut draft = begun(rt.alloc())?;
    assert_eq!(rt;
        add(&mut draft, 2, 10, N, N),
        refused(0, 10, ChangeRefusal::Missing),
        "no node"
    );
    assert_eq!(rt;
        add(&mut draft, 2, 5, N, N),
        refused(0, 5, ChangeRefusal::Missing),
        "a decision"
    );
    assert_eq!(rt;
        add(&mut draft, 2, 8, N, N),
        refused(0, 8, ChangeRefusal::Missing),
        "a test"
    );
    assert_eq!(rt;
        add(&mut draft, 1, 4, 2, N),
        refused(0, 4, ChangeRefusal::Missing),
        "the other way"
    );
    assert_eq!(rt; add(&mut draft, 1, 2, 4, N), Ok(()));
    assert_eq!(rt;
        add(&mut draft, 1, 2, 4, N),
        refused(1, 2, ChangeRefusal::Missing),
        "dropped"
    );
    assert_eq!(rt; add(&mut draft, 2, 1, N, N), Ok(()));
    assert_eq!(rt;
        add(&mut draft, 2, 1, N, N),
        refused(2, 1, ChangeRefusal::Missing),
        "deleted"
    );
    Ok(())
}

#[test]
fn a_delete_takes_its_edges_along(rt: HostRuntime) -> Result<(), Fail> {
    let mut draft = begun(rt.alloc())?;
    assert_eq!(rt; add(&mut draft, 2, 4, N, N), Ok(()));
    assert_eq!(rt;
        add(&mut draft, 1, 2, 4, N),
        refused(1, 2, ChangeRefusal::Missing)
    );
    let plan = draft.release();
    assert_eq!(rt; plan.released().edges().len(), 0);
    Ok(())
}

#[test]
fn edges_are_added_between_activities(rt: HostRuntime) -> Result<(), Fail> {
    let mut draft = begun(rt.alloc())?;
    for (a, b) in [(10, 4), (3, 10), (5, 4), (3, 8)] {
        assert_eq!(rt;
            add(&mut draft, 5, a, b, N),
            refused(0, a, ChangeRefusal::Missing),
            "to {b}"
        );
    }
    Ok(())
}

#[test]
fn whole_items_are_put_beside(rt: HostRuntime) -> Result<(), Fail> {
    let heap = rt.alloc();
    for (from, to) in [
        (0, 0),
        (1, 0),
        (0, 2),
        (2, 5),
        (3, 6),
        (1, 6),
        (16, 17),
        (0, N),
        (N, N),
    ] {
        let mut draft = begun(heap)?;
        assert_eq!(rt;
            add(&mut draft, 4, 10, from, to),
            refused(0, 10, ChangeRefusal::Missing),
            "{from} to {to}"
        );
    }
    for (from, to) in [(0, 1), (1, 7), (0, 16), (2, 4), (3, 4), (11, 14)] {
        let mut draft = begun(heap)?;
        assert_eq!(rt; add(&mut draft, 4, 10, from, to), Ok(()), "{from} to {to}");
    }
    Ok(())
}

#[test]
fn used_ids_are_not_taken_again(rt: HostRuntime) -> Result<(), Fail> {
    let mut draft = begun(rt.alloc())?;
    assert_eq!(rt; add(&mut draft, 2, 9, N, N), Ok(()));
    for id in [1, 5, 8, 63] {
        assert_eq!(rt;
            add(&mut draft, 3, id, 0, N),
            refused(1, id, ChangeRefusal::Used)
        );
        assert_eq!(rt;
            add(&mut draft, 4, id, 0, 1),
            refused(1, id, ChangeRefusal::Used)
        );
    }
    assert_eq!(rt;
        add(&mut draft, 3, 9, 0, N),
        refused(1, 9, ChangeRefusal::Used),
        "deleted earlier"
    );
    assert_eq!(rt; add(&mut draft, 3, 10, 0, N), Ok(()));
    assert_eq!(rt; add(&mut draft, 4, 11, 0, 1), Ok(()));
    assert_eq!(rt;
        add(&mut draft, 3, 10, 0, N),
        refused(3, 10, ChangeRefusal::Used)
    );
    assert_eq!(rt;
        add(&mut draft, 3, 11, 0, N),
        refused(3, 11, ChangeRefusal::Used)
    );
    assert_eq!(rt;
        add(&mut draft, 3, 9, N, N),
        refused(3, 9, ChangeRefusal::Missing),
        "missing comes first"
    );
    Ok(())
}

#[test]
fn a_plan_has_at_most_sixteen_changes(rt: HostRuntime) -> Result<(), Fail> {
    let mut draft = begun(rt.alloc())?;
    for id in 10..26 {
        assert_eq!(rt; add(&mut draft, 3, id, 0, N), Ok(()));
    }
    assert_eq!(rt;
        add(&mut draft, 3, 26, 0, N),
        refused(16, 26, ChangeRefusal::Full)
    );
    assert_eq!(rt;
        add(&mut draft, 5, 3, 2, N),
        refused(16, 3, ChangeRefusal::Full)
    );
    assert_eq!(rt;
        add(&mut draft, 3, 25, 0, N),
        refused(16, 25, ChangeRefusal::Used)
    );
    assert_eq!(rt;
        add(&mut draft, 3, 26, N, N),
        refused(16, 26, ChangeRefusal::Missing)
    );
    assert_eq!(rt;
        add(&mut draft, 2, 1, N, N),
        refused(16, 1, ChangeRefusal::Form)
    );
    let plan = draft.release();
    assert_eq!(rt; plan.changes().len(), 16);
    assert_eq!(rt; plan.released().row().len(), 32);
    Ok(())
}

#[test]
fn a_row_has_at_most_128_elements(rt: HostRuntime) -> Result<(), Fail> {
    let heap = rt.alloc();
    // 126 places are taken by blocks
    let full = blocks(heap, 42)?;
    let mut draft = Draft::begin(heap, &full)?;
    assert_eq!(rt;
        add(&mut draft, 3, 3, 0, N),
        refused(0, 3, ChangeRefusal::Full)
    );
    assert_eq!(rt; add(&mut draft, 2, 1, N, N), Ok(()));
    assert_eq!(rt;
        add(&mut draft, 4, 3, 0, 3),
        refused(1, 3, ChangeRefusal::Full),
        "four more"
    );
    assert_eq!(rt; add(&mut draft, 3, 3, 0, N), Ok(()));
    assert_eq!(rt;
        add(&mut draft, 3, 4, 0, N),
        refused(2, 4, ChangeRefusal::Full)
    );
    let almost = blocks(heap, 41)?;
    let mut draft = Draft::begin(heap, &almost)?;
    assert_eq!(rt;
        add(&mut draft, 4, 3, 0, 3),
        refused(0, 3, ChangeRefusal::Full),
        "129 would be left"
    );
    assert_eq!(rt; add(&mut draft, 2, 1, N, N), Ok(()));
    assert_eq!(rt; add(&mut draft, 4, 3, 0, 3), Ok(()));
    assert_eq!(rt; draft.release().released().row().len(), 128);
    Ok(())
}

#[test]
fn a_schema_has_at_most_32_edges(rt: HostRuntime) -> Result<(), Fail> {
    let heap = rt.alloc();
    let full = joined(heap, 4)?;
    let mut draft = Draft::begin(heap, &full)?;
    assert_eq!(rt;
        add(&mut draft, 5, 4, 8, N),
        refused(0, 4, ChangeRefusal::Full)
    );
    assert_eq!(rt;
        add(&mut draft, 5, 0, 8, N),
        refused(0, 0, ChangeRefusal::Full),
        "though it is listed"
    );
    assert_eq!(rt; add(&mut draft, 1, 0, 8, N), Ok(()));
    assert_eq!(rt;
        add(&mut draft, 5, 1, 8, N),
        refused(1, 1, ChangeRefusal::Edge),
        "listed"
    );
    assert_eq!(rt;
        add(&mut draft, 5, 0, 8, N),
        Ok(()),
        "dropped and added again"
    );
    let plan = draft.release();
    assert_eq!(rt; plan.released().edges().len(), 32);
    assert_eq!(rt; plan.released().edges().last(), Some(&edge(0, 8)));
    Ok(())
}

#[test]
fn added_edges_keep_the_rules(rt: HostRuntime) -> Result<(), Fail> {
    let mut draft = begun(rt.alloc())?;
    for (a, b, why) in [
        (2, 4, "listed"),
        (2, 3, "in one branch"),
        (1, 4, "not parallel"),
        (7, 9, "in a loop and outside"),
        (2, 2, "to itself"),
        (4, 2, "a cycle"),
    ] {
        assert_eq!(rt;
            add(&mut draft, 5, a, b, N),
            refused(0, a, ChangeRefusal::Edge),
            "{why}"
        );
    }
    assert_eq!(rt; add(&mut draft, 5, 4, 3, N), Ok(()));
    assert_eq!(rt;
        add(&mut draft, 5, 3, 4, N),
        refused(1, 3, ChangeRefusal::Edge),
        "a cycle by an edge that was added"
    );
    Ok(())
}

#[test]
fn a_refused_change_changes_nothing(rt: HostRuntime) -> Result<(), Fail> {
    let mut draft = begun(rt.alloc())?;
    assert_eq!(rt; add(&mut draft, 2, 9, N, N), Ok(()));
    assert_eq!(rt;
        add(&mut draft, 3, 9, 0, N),
        refused(1, 9, ChangeRefusal::Used)
    );
    assert_eq!(rt; add(&mut draft, 3, 10, 0, N), Ok(()));
    assert_eq!(rt;
        add(&mut draft, 5, 4, 2, N),
        refused(2, 4, ChangeRefusal::Edge)
    );
    let plan = draft.release();
    assert_eq!(rt;
        plan.changes(),
        [Change::Delete { id: 9 }, Change::Insert { id: 10, gap: 0 }].as_slice()
    );
    assert_eq!(rt; plan.released().row().len(), 16);
    assert_eq!(rt; plan.released().row().first(), Some(&Element::Activity(10)));
    Ok(())
}

#[test]
fn a_plan_has_the_schema_after_each_change(rt: HostRuntime) -> Result<(), Fail> {
    let heap = rt.alloc();
    let base = schema_of(heap, 7, &ROW, &[edge(2, 4)])?;
    let mut draft = Draft::begin(heap, &base)?;
    assert_eq!(rt; add(&mut draft, 2, 63, N, N), Ok(()));
    assert_eq!(rt; add(&mut draft, 4, 10, 2, 4), Ok(()));
    assert_eq!(rt; add(&mut draft, 5, 10, 4, N), Ok(()));
    let plan = draft.release();
    let lengths = [(0, 16, 1), (1, 15, 1), (2, 19, 1), (3, 19, 2)];
    for (i, elements, edges) in lengths {
        let stage = plan.stage(i).ok_or("no stage")?;
        assert_eq!(rt; stage.version(), 8);
        assert_eq!(rt; stage.row().len(), elements);
        assert_eq!(rt; stage.edges().len(), edges);
    }
    assert!(rt; plan.stage(4).is_none());
    let wrapped = [
        Element::Activity(1),
        Element::AndSplit,
        Element::AndSplit,
        Element::Activity(2),
        Element::Activity(3),
        Element::Bar,
        Element::Activity(10),
        Element::AndJoin,
        Element::Bar,
        Element::Activity(4),
        Element::AndJoin,
    ];
    assert_eq!(rt; plan.released().row().get(..11), Some(wrapped.as_slice()));
    assert_eq!(rt;
        plan.released().edges(),
        [edge(2, 4), edge(10, 4)].as_slice()
    );
    Ok(())
}

#[test]
fn a_plan_knows_the_schema_that_it_was_made_of(rt: HostRuntime) -> Result<(), Fail> {
    let heap = rt.alloc();
    let edges = [edge(2, 4)];
    let base = schema_of(heap, 7, &ROW, &edges)?;
    let mut draft = Draft::begin(heap, &base)?;
    assert_eq!(rt; add(&mut draft, 2, 1, N, N), Ok(()));
    let plan = draft.release();
    assert!(rt; plan.is_of(&base));
    assert!(rt;
        plan.is_of(&schema_of(heap, 7, &ROW, &edges)?),
        "another with the same parts"
    );
    assert!(rt; !plan.is_of(plan.released()));
    assert!(rt;
        !plan.is_of(&schema_of(heap, 8, &ROW, &edges)?),
        "another version"
    );
    assert!(rt;
        !plan.is_of(&schema_of(heap, 7, &ROW[1..], &edges)?),
        "another row"
    );
    assert!(rt; !plan.is_of(&schema_of(heap, 7, &ROW, &[])?), "other edges");
    Ok(())
}

#[test]
fn versions_end_at_65535(rt: HostRuntime) -> Result<(), Fail> {
    let heap = rt.alloc();
    for (version, next) in [(0, 1), (65534, 65535), (65535, 65535)] {
        let base = schema_of(heap, version, &ROW, &[])?;
        let plan = Draft::begin(heap, &base)?.release();
        assert_eq!(rt; plan.released().version(), next);
        assert!(rt; plan.is_of(&base));
        assert_eq!(rt;
            plan.is_of(plan.released()),
            version == next,
            "an empty plan of the last version changes nothing"
        );
    }
    Ok(())
}

fn read(heap: Global, line: &[u8]) -> Result<Result<Plan, PlanRefusal>, Fail> {
    Ok(begun(heap)?.read(line))
}

#[test]
fn plans_are_read_from_lines(rt: HostRuntime) -> Result<(), Fail> {
    let heap = rt.alloc();
    let plan = read(heap, b"02030201FFFF030A00FF050403FF")?.map_err(|_| Fail::new("no plan"))?;
    let changes = [
        Change::Delete { id: 1 },
        Change::Insert { id: 10, gap: 0 },
        Change::AddEdge(edge(4, 3)),
    ];
    assert_eq!(rt; plan.changes(), changes.as_slice());
    let empty = read(heap, b"0200")?.map_err(|_| Fail::new("no plan"))?;
    assert_eq!(rt; empty.changes().len(), 0);
    Ok(())
}

fn refusal_of(heap: Global, line: &[u8]) -> Result<Option<PlanRefusal>, Fail> {
    Ok(read(heap, line)?.err())
}

#[test]
fn the_first_refusal_of_a_line_is_told(rt: HostRuntime) -> Result<(), Fail> {
    let heap = rt.alloc();
    assert_eq!(rt;
        refusal_of(heap, b"")?,
        Some(PlanRefusal::Line),
        "no record"
    );
    assert_eq!(rt;
        refusal_of(heap, b"0201")?,
        Some(PlanRefusal::Line),
        "too short"
    );
    assert_eq!(rt;
        refusal_of(heap, b"03010201FFFF")?,
        Some(PlanRefusal::Line),
        "another type"
    );
    let used = PlanRefusal::Change {
        place: 1,
        id: 1,
        refusal: ChangeRefusal::Used,
    };
    // the delete that follows would be refused otherwise
    assert_eq!(rt;
        refusal_of(heap, b"02030201FFFF030100FF02FFFFFF")?,
        Some(used)
    );
    Ok(())
}
