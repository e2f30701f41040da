// Lives of cases in small stores, and what refused calls leave.
use case::case::Case;
use entry_log::{Log, LogRecord};
use history::Store;
use lives::CallRefusal;
use model::refusal::{CaseRefusal, StepRefusal};
use model::{Entry, State};
use queue::Queue;
use schema::schema::Schema;
use schema::space::Space;
use std::alloc::Global;
use std::process::Abort;
use std::test::Fail;
use table::CompactedTable;
use worklist::{Board, Worklist};

// what stands in a place before anything is kept there
const BLANK: Entry = Entry::Leave(0);

// a loop with test 9 of activity 1, an inner loop with test 8 of a decision 5 between 6 and 7, and activity 2; then 3
const LOOPS: &[u8] = b"0100010C07FF010107FF0505010603FF010706FF080801020809010300";

fn schema(heap: Global, line: &[u8]) -> Result<Schema, Fail> {
    let space = Space::new(heap)?;
    Schema::read(space, line).map_err(|_| Fail::new("no schema"))
}

fn refused(place: Option<usize>, id: u8, refusal: StepRefusal) -> Result<(), CallRefusal> {
    Err(refusal.at(place, id).into())
}

fn full(place: Option<usize>, id: u8) -> Result<(), CallRefusal> {
    Err(CallRefusal::Store { place, id })
}

// Takes activity 1 and the decision for 7, up to the inner test.
fn comes_to_the_inner_test<S: Store, W: Worklist>(rt: &impl Abort, case: &mut Case<'_, S, W>) {
    assert!(rt; case.start(1).is_ok());
    assert!(rt; case.finish(1).is_ok());
    assert!(rt; case.choose(5, 1).is_ok());
    assert!(rt; case.start(7).is_ok());
    assert!(rt; case.finish(7).is_ok());
    assert!(rt; case.state(8) == Some(State::Activated));
}

#[test]
fn a_round_of_the_inner_loop_leaves_the_outer(rt: HostRuntime) -> Result<(), Fail> {
    let schema = schema(rt.alloc(), LOOPS)?;
    let mut row = [BLANK; 5];
    let mut case = Case::new(&schema, CompactedTable::over(&mut row), Board::new(), 1);
    comes_to_the_inner_test(&rt, &mut case);
    assert!(rt; case.again(8).is_ok());
    assert!(rt; case.state(1) == Some(State::Completed));
    assert!(rt; case.state(5) == Some(State::Activated));
    assert!(rt; case.state(6) == Some(State::NotActivated));
    assert!(rt; case.store().len() == 2);
    assert!(rt; case.choose(5, 0).is_ok());
    assert!(rt; case.worklist().has(6) && !case.worklist().has(7));
    Ok(())
}

#[test]
fn a_round_of_the_outer_loop_forgets_the_inner(rt: HostRuntime) -> Result<(), Fail> {
    let schema = schema(rt.alloc(), LOOPS)?;
    let mut row = [BLANK; 8];
    let mut case = Case::new(&schema, CompactedTable::over(&mut row), Board::new(), 1);
    comes_to_the_inner_test(&rt, &mut case);
    assert!(rt; case.leave(8).is_ok());
    assert!(rt; case.start(2).is_ok());
    assert!(rt; case.finish(2).is_ok());
    assert!(rt; case.again(9).is_ok());
    assert!(rt; case.store().len() == 0);
    assert!(rt; case.state(8) == Some(State::NotActivated));
    assert!(rt; case.worklist().has(1) && case.worklist().count() == 1);
    // the inner test was left in the round before: it can be come to once more
    comes_to_the_inner_test(&rt, &mut case);
    Ok(())
}

#[test]
fn a_full_log_allows_no_other_round(rt: HostRuntime) -> Result<(), Fail> {
    let schema = schema(rt.alloc(), LOOPS)?;
    let mut row = [LogRecord::Noted(BLANK); 5];
    let mut case = Case::new(&schema, Log::over(&mut row), Board::new(), 1);
    comes_to_the_inner_test(&rt, &mut case);
    assert_eq!(rt; case.again(8), full(None, 8));
    assert!(rt; case.state(8) == Some(State::Activated));
    assert!(rt; case.store().len() == 5);
    Ok(())
}

#[test]
fn a_round_needs_an_activated_test(rt: HostRuntime) -> Result<(), Fail> {
    let schema = schema(rt.alloc(), LOOPS)?;
    let mut row = [BLANK; 5];
    let mut case = Case::new(&schema, CompactedTable::over(&mut row), Board::new(), 1);
    assert_eq!(rt; case.again(8), refused(None, 8, StepRefusal::State));
    assert_eq!(rt; case.again(1), refused(None, 1, StepRefusal::Node));
    assert_eq!(rt; case.again(64), refused(None, 64, StepRefusal::Node));
    Ok(())
}

#[test]
fn steps_want_a_place(rt: HostRuntime) -> Result<(), Fail> {
    let schema = schema(rt.alloc(), LOOPS)?;
    let mut row = [BLANK; 0];
    let mut case = Case::new(&schema, CompactedTable::over(&mut row), Board::new(), 1);
    assert_eq!(rt; case.start(1), full(None, 1));
    assert!(rt; case.state(1) == Some(State::Activated));
    assert!(rt; case.worklist().has(1));
    // the state is looked at before the store
    assert_eq!(rt; case.finish(1), refused(None, 1, StepRefusal::State));
    Ok(())
}

// what is offered by a case that was opened and has no entry
fn is_opened<S: Store, W: Worklist>(rt: &impl Abort, case: &Case<'_, S, W>, number: u32) {
    assert!(rt; case.number() == number);
    assert!(rt; case.store().len() == 0);
    assert!(rt; case.state(1) == Some(State::Activated));
    assert!(rt; case.worklist().has(1) && case.worklist().count() == 1);
}

#[test]
fn a_refused_load_leaves_an_opened_case(rt: HostRuntime) -> Result<(), Fail> {
    let schema = schema(rt.alloc(), LOOPS)?;
    let mut row = [BLANK; 2];
    let mut case = Case::new(&schema, CompactedTable::over(&mut row), Board::new(), 1);
    assert!(rt; case.start(1).is_ok());
    assert_eq!(rt;
        case.load(b"0300000007000101"),
        Err(CaseRefusal::Line.into()),
        "not as long as it says"
    );
    is_opened(&rt, &case, 0);
    assert_eq!(rt;
        case.load(b"030000000700020101FF0904FF"),
        refused(Some(1), 4, StepRefusal::Node)
    );
    is_opened(&rt, &case, 7);
    assert_eq!(rt;
        case.load(b"030000000800020101FF0102FF"),
        refused(Some(1), 2, StepRefusal::State)
    );
    is_opened(&rt, &case, 8);
    assert_eq!(rt;
        case.load(b"030000000900030101FF0201FF030501"),
        full(Some(2), 5)
    );
    is_opened(&rt, &case, 9);
    Ok(())
}

#[test]
fn a_load_goes_on(rt: HostRuntime) -> Result<(), Fail> {
    let schema = schema(rt.alloc(), LOOPS)?;
    let mut row = [BLANK; 4];
    let mut case = Case::new(&schema, CompactedTable::over(&mut row), Queue::new(), 1);
    assert!(rt; case.load(b"030000000700030101FF0201FF030501").is_ok());
    assert!(rt; case.number() == 7);
    assert!(rt; case.worklist().as_slice() == [7].as_slice());
    assert!(rt; case.start(7).is_ok());
    assert_eq!(rt; case.finish(7), full(None, 7));
    Ok(())
}

#[test]
fn an_opening_withdraws_what_was_offered(rt: HostRuntime) -> Result<(), Fail> {
    let schema = schema(rt.alloc(), LOOPS)?;
    let mut board = Board::new();
    for id in 0..64 {
        board.offer(id);
    }
    let mut row = [BLANK; 4];
    let case = Case::new(&schema, CompactedTable::over(&mut row), board, 12);
    is_opened(&rt, &case, 12);
    Ok(())
}
