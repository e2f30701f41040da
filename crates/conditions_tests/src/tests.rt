// Which node a change fails by, in small cases.
use changes::Change;
use conditions::failures::first_failing;
use conditions::hindrances::hindrance;
use drafts::draft::Draft;
use facts::Facts;
use history::Store;
use model::{Edge, Entry};
use plan_record::RawChange;
use runs::steps::step;
use schema::schema::Schema;
use schema::space::Space;
use std::alloc::Global;
use std::test::Fail;
use table::CompactedTable;

// what stands in a place before anything is kept there
const BLANK: Entry = Entry::Leave(0);

fn schema(heap: Global, line: &[u8]) -> Result<Schema, Fail> {
    let space = Space::new(heap)?;
    Schema::read(space, line).map_err(|_| Fail::new("no schema"))
}

// Runs these entries, and keeps them.
fn ran<S: Store>(schema: &Schema, store: &mut S, entries: &[Entry]) -> Result<Facts, Fail> {
    let mut facts = Facts::none();
    for entry in entries {
        if step(schema, &mut facts, *entry).is_err() || store.add(*entry).is_err() {
            return Err(Fail::new("the run stopped"));
        }
    }
    Ok(facts)
}

// What a change fails by, in a case that ran these entries on the schema that a line says.
fn failing(
    heap: Global,
    line: &[u8],
    entries: &[Entry],
    change: Change,
) -> Result<Option<u8>, Fail> {
    let schema = schema(heap, line)?;
    let mut places = [BLANK; 8];
    let mut store = CompactedTable::over(&mut places);
    let facts = ran(&schema, &mut store, entries)?;
    Ok(hindrance(&schema, &facts, &store, change))
}

fn edge(source: u8, target: u8) -> Change {
    Change::AddEdge(Edge { source, target })
}

// activity 1, then 2 beside 3, then 4
const BESIDE: &[u8] = b"01000107010102FF010203FF010304FF010400";

const ONE_DONE: [Entry; 2] = [Entry::Start(1), Entry::End(1)];

#[test]
fn an_insert_is_hindered_by_what_comes_next(rt: HostRuntime) -> Result<(), Fail> {
    let [one, two] = ONE_DONE;
    let begun = [one, two, Entry::Start(2)];
    let insert = |gap| Change::Insert { id: 9, gap };
    let heap = rt.alloc();
    assert_eq!(rt;
        failing(heap, BESIDE, &begun, insert(0))?,
        Some(1),
        "it is Completed"
    );
    assert_eq!(rt; failing(heap, BESIDE, &begun, insert(1))?, Some(2));
    assert_eq!(rt; failing(heap, BESIDE, &begun, insert(2))?, Some(2));
    assert_eq!(rt;
        failing(heap, BESIDE, &begun, insert(3))?,
        None,
        "4 comes next"
    );
    assert_eq!(rt;
        failing(heap, BESIDE, &begun, insert(4))?,
        None,
        "3 is not begun"
    );
    assert_eq!(rt;
        failing(heap, BESIDE, &begun, insert(7))?,
        None,
        "the row's end"
    );
    Ok(())
}

#[test]
fn the_least_that_hinders_is_told(rt: HostRuntime) -> Result<(), Fail> {
    let [one, two] = ONE_DONE;
    let insert = Change::Insert { id: 9, gap: 1 };
    let heap = rt.alloc();
    let both = [one, two, Entry::Start(3), Entry::Start(2)];
    assert_eq!(rt; failing(heap, BESIDE, &both, insert)?, Some(2));
    let second = [one, two, Entry::Start(3)];
    assert_eq!(rt; failing(heap, BESIDE, &second, insert)?, Some(3));
    assert_eq!(rt; failing(heap, BESIDE, &ONE_DONE, insert)?, None);
    Ok(())
}

// decision 5 of 6 and 7, then 8
const CHOICE: &[u8] = b"010001060505010603FF010706FF010800";

#[test]
fn a_dead_branch_is_not_left_by_its_join(rt: HostRuntime) -> Result<(), Fail> {
    let entries = [
        Entry::Choose(5, 1),
        Entry::Start(7),
        Entry::End(7),
        Entry::Start(8),
    ];
    let insert = |gap| Change::Insert { id: 9, gap };
    let heap = rt.alloc();
    assert_eq!(rt; failing(heap, CHOICE, &entries, insert(0))?, Some(5));
    assert_eq!(rt; failing(heap, CHOICE, &entries, insert(1))?, None);
    assert_eq!(rt;
        failing(heap, CHOICE, &entries, insert(2))?,
        None,
        "8 never comes from there"
    );
    assert_eq!(rt; failing(heap, CHOICE, &entries, insert(3))?, Some(7));
    assert_eq!(rt; failing(heap, CHOICE, &entries, insert(4))?, Some(8));
    assert_eq!(rt; failing(heap, CHOICE, &entries, insert(5))?, Some(8));
    assert_eq!(rt; failing(heap, CHOICE, &entries, insert(6))?, None);
    Ok(())
}

// decision 10 of 11 and 12, beside 13
const SKIPPED: &[u8] = b"0100010902FF050A010B03FF010C06FF03FF010D04FF00";

#[test]
fn a_skipped_source_was_decided_against_before(rt: HostRuntime) -> Result<(), Fail> {
    let heap = rt.alloc();
    let late = [Entry::Start(13), Entry::Choose(10, 1)];
    assert_eq!(rt; failing(heap, SKIPPED, &late, edge(11, 13))?, Some(13));
    let early = [Entry::Choose(10, 1), Entry::Start(13)];
    assert_eq!(rt; failing(heap, SKIPPED, &early, edge(11, 13))?, None);
    assert_eq!(rt;
        failing(heap, SKIPPED, &early, edge(12, 13))?,
        Some(13),
        "12 is chosen"
    );
    Ok(())
}

// decision 10 of a decision 5 of 6 and 7, and of 8; beside 13
const NESTED: &[u8] = b"0100010D02FF050A0505010603FF010706FF03FF010806FF03FF010D04FF00";

#[test]
fn the_decision_that_fell_may_be_any_around(rt: HostRuntime) -> Result<(), Fail> {
    let heap = rt.alloc();
    let outer = [Entry::Choose(10, 1), Entry::Start(13)];
    assert_eq!(rt; failing(heap, NESTED, &outer, edge(6, 13))?, None);
    let outer_late = [Entry::Start(13), Entry::Choose(10, 1)];
    assert_eq!(rt; failing(heap, NESTED, &outer_late, edge(6, 13))?, Some(13));
    let inner = [Entry::Choose(10, 0), Entry::Choose(5, 1), Entry::Start(13)];
    assert_eq!(rt; failing(heap, NESTED, &inner, edge(6, 13))?, None);
    let inner_late = [Entry::Choose(10, 0), Entry::Start(13), Entry::Choose(5, 1)];
    assert_eq!(rt; failing(heap, NESTED, &inner_late, edge(6, 13))?, Some(13));
    assert_eq!(rt;
        failing(heap, NESTED, &inner_late, edge(8, 13))?,
        None,
        "decided at once"
    );
    Ok(())
}

// activity 1 beside 2
const PAIR: &[u8] = b"0100010502FF010103FF010204FF00";

#[test]
fn a_finished_source_ended_before(rt: HostRuntime) -> Result<(), Fail> {
    let heap = rt.alloc();
    let before = [Entry::Start(1), Entry::End(1), Entry::Start(2)];
    assert_eq!(rt; failing(heap, PAIR, &before, edge(1, 2))?, None);
    let after = [Entry::Start(1), Entry::Start(2), Entry::End(1)];
    assert_eq!(rt; failing(heap, PAIR, &after, edge(1, 2))?, Some(2));
    let running = [Entry::Start(1), Entry::Start(2)];
    assert_eq!(rt; failing(heap, PAIR, &running, edge(1, 2))?, Some(2));
    assert_eq!(rt;
        failing(heap, PAIR, &[Entry::Start(1)], edge(1, 2))?,
        None,
        "2 is not begun"
    );
    Ok(())
}

#[test]
fn what_is_begun_is_not_deleted(rt: HostRuntime) -> Result<(), Fail> {
    let heap = rt.alloc();
    let entries = [Entry::Start(1), Entry::End(1), Entry::Start(2)];
    let delete = |id| Change::Delete { id };
    assert_eq!(rt;
        failing(heap, PAIR, &entries, delete(1))?,
        Some(1),
        "it is Completed"
    );
    assert_eq!(rt;
        failing(heap, PAIR, &entries, delete(2))?,
        Some(2),
        "it is Running"
    );
    assert_eq!(rt; failing(heap, PAIR, &[], delete(1))?, None);
    let chosen = [Entry::Choose(5, 1)];
    assert_eq!(rt;
        failing(heap, CHOICE, &chosen, delete(6))?,
        None,
        "it is Skipped"
    );
    Ok(())
}

#[test]
fn an_edge_is_always_dropped(rt: HostRuntime) -> Result<(), Fail> {
    let joined = b"0100010502FF010103FF010204FF010102";
    let drop = Change::DropEdge(Edge {
        source: 1,
        target: 2,
    });
    let entries = [Entry::Start(1), Entry::End(1), Entry::Start(2)];
    assert_eq!(rt; failing(rt.alloc(), joined, &entries, drop)?, None);
    Ok(())
}

// activities 1, 2 and 3
const LINE: &[u8] = b"0100010301010102010300";

#[test]
fn what_is_put_beside_is_judged_at_the_end(rt: HostRuntime) -> Result<(), Fail> {
    let heap = rt.alloc();
    let beside = |from, to| Change::InsertBeside { id: 9, from, to };
    let done = [Entry::Start(1), Entry::End(1)];
    assert_eq!(rt;
        failing(heap, LINE, &done, beside(0, 1))?,
        None,
        "1 is Completed, 2 comes next"
    );
    let begun = [Entry::Start(1), Entry::End(1), Entry::Start(2)];
    assert_eq!(rt; failing(heap, LINE, &begun, beside(0, 1))?, Some(2));
    assert_eq!(rt; failing(heap, LINE, &begun, beside(0, 2))?, None);
    assert_eq!(rt; failing(heap, LINE, &begun, beside(1, 3))?, None);
    Ok(())
}

// The bytes of an insert of an activity at a gap.
fn insert(id: u8, gap: u8) -> RawChange {
    RawChange {
        kind: 3,
        a: id,
        b: gap,
        c: 0xFF,
    }
}

// The bytes of a new edge.
fn new_edge(source: u8, target: u8) -> RawChange {
    RawChange {
        kind: 5,
        a: source,
        b: target,
        c: 0xFF,
    }
}

// The first change that fails of a plan of these, after these entries on BESIDE.
fn first(
    heap: Global,
    entries: &[Entry],
    changes: &[RawChange],
) -> Result<Option<(usize, u8)>, Fail> {
    let base = schema(heap, BESIDE)?;
    let mut draft = Draft::begin(heap, &base)?;
    for change in changes {
        draft
            .add(*change)
            .map_err(|_| Fail::new("a change is refused"))?;
    }
    let plan = draft.release();
    let mut places = [BLANK; 8];
    let mut store = CompactedTable::over(&mut places);
    let facts = ran(&base, &mut store, entries)?;
    Ok(first_failing(&plan, &facts, &store))
}

#[test]
fn the_first_change_that_fails_is_told(rt: HostRuntime) -> Result<(), Fail> {
    let heap = rt.alloc();
    let begun = [Entry::Start(1), Entry::End(1), Entry::Start(2)];
    let behind = insert(9, 3);
    let before = insert(8, 1);
    assert_eq!(rt; first(heap, &begun, &[behind, new_edge(9, 3)])?, None);
    assert_eq!(rt; first(heap, &begun, &[behind, before])?, Some((1, 2)));
    assert_eq!(rt;
        first(heap, &begun, &[behind, new_edge(2, 3), before])?,
        Some((2, 2))
    );
    assert_eq!(rt; first(heap, &begun, &[])?, None);
    Ok(())
}

// With 9 before 2, gap 4 lies behind 2; on the base it lies before 3, which is Running.
#[test]
fn each_change_is_judged_on_the_row_before_it(rt: HostRuntime) -> Result<(), Fail> {
    let heap = rt.alloc();
    let begun = [Entry::Start(1), Entry::End(1), Entry::Start(3)];
    assert_eq!(rt; first(heap, &begun, &[insert(9, 2), insert(8, 4)])?, None);
    assert_eq!(rt;
        first(heap, &begun, &[insert(9, 2), insert(8, 5)])?,
        Some((1, 3))
    );
    Ok(())
}
