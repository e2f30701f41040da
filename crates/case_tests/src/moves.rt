// Cases that are moved to changed schemas, and moves that are refused.
use case::case::Case;
use drafts::draft::Draft;
use drafts::plan::Plan;
use entry_log::{Log, LogRecord};
use history::Store;
use lives::CallRefusal;
use model::refusal::Reason;
use model::{Entry, State};
use plan_record::RawChange;
use queue::Queue;
use schema::schema::Schema;
use schema::space::Space;
use std::alloc::Global;
use std::process::Abort;
use std::test::Fail;
use table::CompactedTable;
use worklist::{Board, Worklist};

// what stands in a place before anything is kept there
const BLANK: Entry = Entry::Leave(0);

// activity 1, then 2 beside 3, then 4
const BESIDE: &[u8] = b"01000107010102FF010203FF010304FF010400";

// the same with the sync edge from 2 to 3
const WAITING: &[u8] = b"01000107010102FF010203FF010304FF0104010203";

// activity 1 before 2, beside 3; then 4
const ORDERED: &[u8] = b"0100010702FF0101010203FF010304FF010400";

// decision 5 of 6 and 7, then 8
const CHOICE: &[u8] = b"010001060505010603FF010706FF010800";

// a loop with test 9 of activity 1, an inner loop with test 8 of a decision 5 between 6 and 7, and activity 2; then 3
const LOOPS: &[u8] = b"0100010C07FF010107FF0505010603FF010706FF080801020809010300";

fn schema(heap: Global, line: &[u8]) -> Result<Schema, Fail> {
    let space = Space::new(heap)?;
    Schema::read(space, line).map_err(|_| Fail::new("no schema"))
}

fn plan_of(heap: Global, base: &Schema, changes: &[RawChange]) -> Result<Plan, Fail> {
    let mut draft = Draft::begin(heap, base)?;
    for change in changes {
        draft
            .add(*change)
            .map_err(|_| Fail::new("a change is refused"))?;
    }
    Ok(draft.release())
}

fn change(kind: u8, a: u8, b: u8, c: u8) -> RawChange {
    RawChange { kind, a, b, c }
}

fn drop_edge(source: u8, target: u8) -> RawChange {
    change(1, source, target, 0xFF)
}

fn delete(id: u8) -> RawChange {
    change(2, id, 0xFF, 0xFF)
}

fn insert(id: u8, gap: u8) -> RawChange {
    change(3, id, gap, 0xFF)
}

fn beside(id: u8, from: u8, to: u8) -> RawChange {
    change(4, id, from, to)
}

fn add_edge(source: u8, target: u8) -> RawChange {
    change(5, source, target, 0xFF)
}

fn fails(place: usize, id: u8) -> Result<(), CallRefusal> {
    Err(CallRefusal::Change { place, id })
}

// Begins and ends these activities, one after the other.
fn works<S: Store, W: Worklist>(rt: &impl Abort, case: &mut Case<'_, S, W>, ids: &[u8]) {
    for id in ids {
        assert!(rt; case.start(*id).is_ok(), "start {id}");
        assert!(rt; case.finish(*id).is_ok(), "finish {id}");
    }
}

// The case's store holds exactly these entries.
fn holds<S: Store, W: Worklist>(rt: &impl Abort, case: &Case<'_, S, W>, entries: &[Entry]) {
    assert_eq!(rt; case.store().len(), entries.len());
    for (place, entry) in entries.iter().enumerate() {
        assert_eq!(rt; case.store().entry(place), Some(*entry));
    }
}

// A call on a case that is accepted.
#[derive(Clone, Copy)]
enum Call<'p> {
    Start(u8),
    Finish(u8),
    Choose(u8, u8),
    Again(u8),
    Move(&'p Plan),
}

fn take<'s, S: Store>(case: &mut Case<'s, S, Queue>, call: Call<'s>) -> Result<(), CallRefusal> {
    match call {
        Call::Start(id) => case.start(id),
        Call::Finish(id) => case.finish(id),
        Call::Choose(id, branch) => case.choose(id, branch),
        Call::Again(id) => case.again(id),
        Call::Move(plan) => case.migrate(plan),
    }
}

// Each of these calls is accepted, and what stands beside it is then on offer, in this order.
fn lives<'s, S: Store>(
    rt: &impl Abort,
    case: &mut Case<'s, S, Queue>,
    calls: &[(Call<'s>, &[u8])],
) {
    for (i, (next, offered)) in calls.iter().enumerate() {
        assert_eq!(rt; take(case, *next), Ok(()), "call {i}");
        assert!(rt; case.worklist().as_slice() == *offered, "after call {i}");
    }
}

// The move by this plan is answered so, and nothing of the case, its store and its worklist changes.
fn stays<'s, S: Store>(
    rt: &impl Abort,
    case: &mut Case<'s, S, Queue>,
    plan: &'s Plan,
    answer: Result<(), CallRefusal>,
    offered: &[u8],
    entries: &[Entry],
) {
    let number = case.number();
    let version = case.schema().version();
    let before = case.marking();
    assert!(rt; case.worklist().as_slice() == offered);
    assert_eq!(rt; case.migrate(plan), answer);
    assert!(rt; case.number() == number && case.schema().version() == version);
    for id in 0..64 {
        assert!(rt; case.state(id) == before.state(id), "the state of {id}");
    }
    assert!(rt; case.worklist().as_slice() == offered);
    holds(rt, case, entries);
}

#[test]
fn a_moved_case_keeps_all_but_its_schema(rt: HostRuntime) -> Result<(), Fail> {
    let heap = rt.alloc();
    let base = schema(heap, ORDERED)?;
    // 0 beside 3
    let plan = plan_of(heap, &base, &[beside(0, 4, 5)])?;
    let mut row = [LogRecord::Noted(BLANK); 10];
    let mut case = Case::new(&base, Log::over(&mut row), Queue::new(), 12);
    // what stays on offer keeps its order, and what is new goes to the end
    let begun: [(Call, &[u8]); 3] = [
        (Call::Start(1), &[3]),
        (Call::Finish(1), &[3, 2]),
        (Call::Move(&plan), &[3, 2, 0]),
    ];
    lives(&rt, &mut case, &begun);
    assert!(rt; case.number() == 12 && case.schema().version() == 2);
    assert!(rt; case.state(1) == Some(State::Completed));
    holds(&rt, &case, &[Entry::Start(1), Entry::End(1)]);
    works(&rt, &mut case, &[0, 2]);
    assert!(rt; case.state(4) == Some(State::NotActivated));
    works(&rt, &mut case, &[3, 4]);
    assert!(rt; case.is_finished() && case.store().len() == 10);
    Ok(())
}

#[test]
fn what_follows_a_new_activity_is_no_more_on_offer(rt: HostRuntime) -> Result<(), Fail> {
    let heap = rt.alloc();
    let base = schema(heap, BESIDE)?;
    let plan = plan_of(heap, &base, &[delete(3), insert(9, 1)])?;
    let mut row = [BLANK; 8];
    let mut case = Case::new(&base, CompactedTable::over(&mut row), Board::new(), 12);
    works(&rt, &mut case, &[1]);
    assert!(rt; case.worklist().has(2) && case.worklist().has(3));
    assert_eq!(rt; case.migrate(&plan), Ok(()));
    assert!(rt; case.state(3).is_none());
    assert!(rt; case.state(2) == Some(State::NotActivated));
    assert!(rt; case.worklist().has(9) && case.worklist().count() == 1);
    works(&rt, &mut case, &[9, 2, 4]);
    assert!(rt; case.is_finished());
    Ok(())
}

#[test]
fn what_is_put_into_a_dead_branch_is_skipped(rt: HostRuntime) -> Result<(), Fail> {
    let heap = rt.alloc();
    let base = schema(heap, CHOICE)?;
    let plan = plan_of(heap, &base, &[insert(9, 2)])?;
    let mut row = [BLANK; 5];
    let mut case = Case::new(&base, CompactedTable::over(&mut row), Queue::new(), 1);
    let calls: [(Call, &[u8]); 5] = [
        (Call::Choose(5, 1), &[7]),
        (Call::Start(7), &[]),
        (Call::Finish(7), &[8]),
        (Call::Start(8), &[]),
        (Call::Move(&plan), &[]),
    ];
    lives(&rt, &mut case, &calls);
    assert!(rt; case.state(9) == Some(State::Skipped));
    assert!(rt; case.state(8) == Some(State::Running));
    assert!(rt; case.finish(8).is_ok() && case.is_finished());
    Ok(())
}

// the empty row, and an AND block with nothing in it
const NOTHING_TO_DO: [&[u8]; 2] = [b"0100010000", b"0100010302FF03FF04FF00"];

#[test]
fn a_finished_case_is_not_moved(rt: HostRuntime) -> Result<(), Fail> {
    let heap = rt.alloc();
    let other = schema(heap, BESIDE)?;
    let foreign = plan_of(heap, &other, &[delete(2)])?;
    for line in NOTHING_TO_DO {
        let base = schema(heap, line)?;
        let empty = plan_of(heap, &base, &[])?;
        let mut row = [BLANK; 1];
        let mut case = Case::new(&base, CompactedTable::over(&mut row), Queue::new(), 1);
        stays(&rt, &mut case, &empty, Err(CallRefusal::Finished), &[], &[]);
        // whatever the plan was made of
        stays(
            &rt,
            &mut case,
            &foreign,
            Err(CallRefusal::Finished),
            &[],
            &[],
        );
    }
    let base = schema(heap, CHOICE)?;
    let late = plan_of(heap, &base, &[insert(9, 6)])?;
    let mut row = [BLANK; 5];
    let mut case = Case::new(&base, CompactedTable::over(&mut row), Queue::new(), 1);
    assert!(rt; case.choose(5, 1).is_ok());
    works(&rt, &mut case, &[7, 8]);
    let entries = [
        Entry::Choose(5, 1),
        Entry::Start(7),
        Entry::End(7),
        Entry::Start(8),
        Entry::End(8),
    ];
    stays(
        &rt,
        &mut case,
        &late,
        Err(CallRefusal::Finished),
        &[],
        &entries,
    );
    stays(
        &rt,
        &mut case,
        &foreign,
        Err(CallRefusal::Finished),
        &[],
        &entries,
    );
    Ok(())
}

// 1 beside 2 beside 3, with edges from 1 to 2 and to 3
const EDGES: &[u8] = b"0100010702FF010103FF010203FF010304FF0201020103";

// another version; 2 before 3; the edges in another order; no edge to 3
const NOT_EDGES: [&[u8]; 4] = [
    b"0100020702FF010103FF010203FF010304FF0201020103",
    b"0100010702FF010103FF010303FF010204FF0201020103",
    b"0100010702FF010103FF010203FF010304FF0201030102",
    b"0100010702FF010103FF010203FF010304FF010102",
];

#[test]
fn a_plan_of_another_schema_moves_no_case(rt: HostRuntime) -> Result<(), Fail> {
    let heap = rt.alloc();
    let base = schema(heap, EDGES)?;
    let entries = [Entry::Start(1)];
    for line in NOT_EDGES {
        let other = schema(heap, line)?;
        let empty = plan_of(heap, &other, &[])?;
        // it could not be made under the case either
        let failing = plan_of(heap, &other, &[delete(1)])?;
        let mut row = [BLANK; 2];
        let mut case = Case::new(&base, CompactedTable::over(&mut row), Queue::new(), 1);
        assert!(rt; case.start(1).is_ok());
        stays(
            &rt,
            &mut case,
            &empty,
            Err(CallRefusal::OtherBase),
            &[],
            &entries,
        );
        stays(
            &rt,
            &mut case,
            &failing,
            Err(CallRefusal::OtherBase),
            &[],
            &entries,
        );
    }
    // a schema with the same parts is the same
    let same = schema(heap, EDGES)?;
    let plan = plan_of(heap, &same, &[delete(3)])?;
    let mut row = [BLANK; 2];
    let mut case = Case::new(&base, CompactedTable::over(&mut row), Queue::new(), 1);
    assert!(rt; case.start(1).is_ok());
    assert_eq!(rt; case.migrate(&plan), Ok(()));
    Ok(())
}

#[test]
fn a_change_that_fails_refuses_the_move(rt: HostRuntime) -> Result<(), Fail> {
    let heap = rt.alloc();
    let base = schema(heap, WAITING)?;
    let plans: [(&[RawChange], usize, u8); 7] = [
        (&[delete(2)], 0, 2),
        (&[drop_edge(2, 3), delete(3), delete(1)], 2, 1),
        (&[insert(9, 0)], 0, 1),
        (&[insert(9, 7), insert(8, 3), insert(7, 2)], 2, 2),
        (&[beside(9, 0, 1)], 0, 2),
        (&[beside(9, 4, 5), beside(8, 0, 1)], 1, 2),
        (&[drop_edge(2, 3), add_edge(3, 2)], 1, 2),
    ];
    for (changes, place, id) in plans {
        let plan = plan_of(heap, &base, changes)?;
        let mut row = [LogRecord::Noted(BLANK); 4];
        let mut case = Case::new(&base, Log::over(&mut row), Queue::new(), 1);
        works(&rt, &mut case, &[1]);
        assert!(rt; case.start(2).is_ok());
        let entries = [Entry::Start(1), Entry::End(1), Entry::Start(2)];
        stays(&rt, &mut case, &plan, fails(place, id), &[], &entries);
    }
    Ok(())
}

#[test]
fn a_refused_move_leaves_what_is_on_offer(rt: HostRuntime) -> Result<(), Fail> {
    let heap = rt.alloc();
    let base = schema(heap, ORDERED)?;
    // 0 would be on offer, and 4 would be gone
    let plan = plan_of(heap, &base, &[delete(4), beside(0, 4, 5), insert(9, 1)])?;
    let mut row = [BLANK; 4];
    let mut case = Case::new(&base, CompactedTable::over(&mut row), Queue::new(), 1);
    works(&rt, &mut case, &[1]);
    let entries = [Entry::Start(1), Entry::End(1)];
    stays(&rt, &mut case, &plan, fails(2, 1), &[3, 2], &entries);
    works(&rt, &mut case, &[2]);
    Ok(())
}

#[test]
fn a_plan_without_changes_moves_every_case(rt: HostRuntime) -> Result<(), Fail> {
    let heap = rt.alloc();
    let versions: [(&[u8], u16); 3] = [
        (b"01000001010100", 1),
        (b"01FFFE01010100", 65535),
        (b"01FFFF01010100", 65535),
    ];
    for (line, next) in versions {
        let base = schema(heap, line)?;
        let plan = plan_of(heap, &base, &[])?;
        let mut row = [BLANK; 2];
        let mut case = Case::new(&base, CompactedTable::over(&mut row), Queue::new(), 1);
        assert_eq!(rt; case.migrate(&plan), Ok(()));
        assert!(rt; case.schema().version() == next);
        assert!(rt; case.worklist().as_slice() == [1].as_slice());
        assert!(rt; case.start(1).is_ok());
        let again = if base.version() == next {
            Ok(())
        } else {
            Err(CallRefusal::OtherBase)
        };
        stays(&rt, &mut case, &plan, again, &[], &[Entry::Start(1)]);
        assert!(rt; case.finish(1).is_ok() && case.is_finished());
    }
    Ok(())
}

#[test]
fn a_moved_case_is_moved_once_more(rt: HostRuntime) -> Result<(), Fail> {
    let heap = rt.alloc();
    let base = schema(heap, BESIDE)?;
    let first = plan_of(heap, &base, &[insert(9, 3)])?;
    let second = plan_of(heap, first.released(), &[add_edge(9, 3), insert(10, 8)])?;
    let mut row = [BLANK; 12];
    let mut case = Case::new(&base, CompactedTable::over(&mut row), Queue::new(), 1);
    assert_eq!(rt; case.migrate(&second), Err(CallRefusal::OtherBase));
    let calls: [(Call, &[u8]); 6] = [
        (Call::Start(1), &[]),
        (Call::Finish(1), &[2, 3]),
        (Call::Start(2), &[3]),
        (Call::Move(&first), &[3]),
        (Call::Finish(2), &[3, 9]),
        // 3 waits for 9
        (Call::Move(&second), &[9]),
    ];
    lives(&rt, &mut case, &calls);
    assert!(rt; case.schema().version() == 3);
    assert_eq!(rt; case.migrate(&first), Err(CallRefusal::OtherBase));
    works(&rt, &mut case, &[9, 3, 4, 10]);
    assert_eq!(rt; case.migrate(&second), Err(CallRefusal::Finished));
    Ok(())
}

#[test]
fn what_a_round_forgot_hinders_no_move(rt: HostRuntime) -> Result<(), Fail> {
    let heap = rt.alloc();
    let base = schema(heap, LOOPS)?;
    // before the decision
    let plan = plan_of(heap, &base, &[insert(10, 3)])?;
    let mut row = [LogRecord::Noted(BLANK); 16];
    let mut case = Case::new(&base, Log::over(&mut row), Queue::new(), 1);
    works(&rt, &mut case, &[1]);
    assert!(rt; case.choose(5, 1).is_ok());
    works(&rt, &mut case, &[7]);
    assert_eq!(rt; case.migrate(&plan), fails(0, 5));
    // a round on the changed schema takes the new activity as well
    let calls: [(Call, &[u8]); 8] = [
        (Call::Again(8), &[]),
        (Call::Move(&plan), &[10]),
        (Call::Start(10), &[]),
        (Call::Finish(10), &[]),
        (Call::Choose(5, 0), &[6]),
        (Call::Start(6), &[]),
        (Call::Finish(6), &[]),
        (Call::Again(8), &[10]),
    ];
    lives(&rt, &mut case, &calls);
    holds(&rt, &case, &[Entry::Start(1), Entry::End(1)]);
    assert!(rt; case.state(5) == Some(State::NotActivated));
    Ok(())
}

#[test]
fn a_case_begins_anew_on_another_schema(rt: HostRuntime) -> Result<(), Fail> {
    let heap = rt.alloc();
    let base = schema(heap, BESIDE)?;
    let other = schema(heap, LOOPS)?;
    let of_base = plan_of(heap, &base, &[])?;
    let of_other = plan_of(heap, &other, &[])?;
    let mut row = [BLANK; 2];
    let mut case = Case::new(&base, CompactedTable::over(&mut row), Queue::new(), 1);
    works(&rt, &mut case, &[1]);
    case.open_on(&other, 5);
    assert!(rt; case.number() == 5);
    assert!(rt; case.schema().row().len() == 12);
    assert!(rt; case.store().len() == 0);
    assert!(rt; case.state(1) == Some(State::Activated));
    assert!(rt; case.worklist().as_slice() == [1].as_slice());
    assert_eq!(rt; case.migrate(&of_base), Err(CallRefusal::OtherBase));
    assert_eq!(rt; case.migrate(&of_other), Ok(()));
    works(&rt, &mut case, &[1]);
    Ok(())
}

#[test]
fn refusals_of_a_move_have_their_numbers(rt: HostRuntime) {
    let change = CallRefusal::Change { place: 3, id: 5 };
    let told = [
        (CallRefusal::Finished, 33, None, None),
        (CallRefusal::OtherBase, 34, None, None),
        (change, 35, Some(3), Some(5)),
    ];
    for (refusal, number, place, id) in told {
        let reason = Reason {
            place,
            id,
            number,
            layer: 6,
        };
        assert_eq!(rt; Reason::from(refusal), reason);
    }
}
