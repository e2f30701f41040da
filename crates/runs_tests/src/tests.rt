use case_record::CaseRecord;
use facts::Facts;
use marking::marking::Marking;
use model::State;
use model::refusal::{CaseRefusal, StepRefusal};
use runs::histories::run;
use schema::schema::Schema;
use schema::space::Space;
use std::alloc::Global;
use std::process::Abort;
use std::test::Fail;

// entries
const START: u8 = 1;

const END: u8 = 2;

const CHOOSE: u8 = 3;

const LEAVE: u8 = 4;

const N: u8 = 0xFF;

// The schema that a line says, with the entries run on it.
fn marked(heap: Global, line: &[u8], entries: &[u8]) -> Result<Marking, Fail> {
    let space = Space::new(heap)?;
    let Ok(schema) = Schema::read(space, line) else {
        return Err(Fail::new("no schema"));
    };
    let mut facts = Facts::none();
    match run(&schema, &mut facts, CaseRecord { number: 1, entries }) {
        Ok(()) => Ok(Marking::of(&schema, &facts)),
        Err(_) => Err(Fail::new("the run stopped")),
    }
}

fn is(rt: &impl Abort, marking: &Marking, id: u8, state: State) {
    assert!(rt; marking.state(id) == Some(state));
}

// activity 1, then 2 beside 3, then 4
#[test]
fn beside(rt: HostRuntime) -> Result<(), Fail> {
    let line = b"01000107010102FF010203FF010304FF010400";
    let history = [START, 1, N, END, 1, N, START, 2, N, START, 3, N];
    let marking = marked(rt.alloc(), line, &history)?;
    is(&rt, &marking, 1, State::Completed);
    is(&rt, &marking, 2, State::Running);
    is(&rt, &marking, 3, State::Running);
    is(&rt, &marking, 4, State::NotActivated);
    assert!(rt; marking.state(5).is_none());
    Ok(())
}

// decision 5 of 6 and 7, then 8
#[test]
fn choice(rt: HostRuntime) -> Result<(), Fail> {
    let line = b"010001060505010603FF010706FF010800";
    let history = [CHOOSE, 5, 1, START, 7, N, END, 7, N, START, 8, N, END, 8, N];
    let marking = marked(rt.alloc(), line, &history)?;
    is(&rt, &marking, 5, State::Completed);
    assert!(rt; marking.branch(5) == Some(1));
    is(&rt, &marking, 6, State::Skipped);
    is(&rt, &marking, 8, State::Completed);
    assert!(rt; marking.is_finished());
    Ok(())
}

// decision 10 of 11 and 12, beside 13, which waits for 11
#[test]
fn waits_for_a_skipped_source(rt: HostRuntime) -> Result<(), Fail> {
    let line = b"0100010902FF050A010B03FF010C06FF03FF010D04FF010B0D";
    let marking = marked(rt.alloc(), line, &[])?;
    is(&rt, &marking, 13, State::NotActivated);
    let chosen = marked(rt.alloc(), line, &[CHOOSE, 10, 1])?;
    is(&rt, &chosen, 11, State::Skipped);
    is(&rt, &chosen, 13, State::Activated);
    Ok(())
}

// activity 2 waits for 1, which stands beside it
#[test]
fn waits_for_a_completed_source(rt: HostRuntime) -> Result<(), Fail> {
    let line = b"0100010502FF010103FF010204FF010102";
    let marking = marked(rt.alloc(), line, &[START, 1, N])?;
    is(&rt, &marking, 2, State::NotActivated);
    let ended = marked(rt.alloc(), line, &[START, 1, N, END, 1, N])?;
    is(&rt, &ended, 2, State::Activated);
    Ok(())
}

// one branch of an AND block is empty, then one of an XOR block
#[test]
fn empty_branches(rt: HostRuntime) -> Result<(), Fail> {
    let both = b"0100010502FF010103FF04FF010200";
    let marking = marked(rt.alloc(), both, &[START, 1, N])?;
    is(&rt, &marking, 2, State::NotActivated);
    let ended = marked(rt.alloc(), both, &[START, 1, N, END, 1, N])?;
    is(&rt, &ended, 2, State::Activated);
    let one = b"01000105050503FF010606FF010200";
    let chosen = marked(rt.alloc(), one, &[CHOOSE, 5, 0])?;
    is(&rt, &chosen, 6, State::Skipped);
    is(&rt, &chosen, 2, State::Activated);
    Ok(())
}

// a loop with test 9 of activity 1, an inner loop with test 8 of a decision 5 between 6 and 7, and activity 2; then 3
const LOOPS: &[u8] = b"0100010C07FF010107FF0505010603FF010706FF080801020809010300";

#[test]
fn loops_in_loops(rt: HostRuntime) -> Result<(), Fail> {
    let inner = [START, 1, N, END, 1, N, CHOOSE, 5, 1, START, 7, N, END, 7, N];
    let marking = marked(rt.alloc(), LOOPS, &inner)?;
    is(&rt, &marking, 6, State::Skipped);
    is(&rt, &marking, 8, State::Activated);
    is(&rt, &marking, 2, State::NotActivated);
    let outer = [
        START, 1, N, END, 1, N, CHOOSE, 5, 1, START, 7, N, END, 7, N, LEAVE, 8, N, START, 2, N,
        END, 2, N, LEAVE, 9, N,
    ];
    let left = marked(rt.alloc(), LOOPS, &outer)?;
    is(&rt, &left, 9, State::Completed);
    is(&rt, &left, 3, State::Activated);
    assert!(rt; !left.is_finished());
    Ok(())
}

// Why the run of these entries stops.
fn stopped(heap: Global, line: &[u8], entries: &[u8]) -> Result<CaseRefusal, Fail> {
    let space = Space::new(heap)?;
    let Ok(schema) = Schema::read(space, line) else {
        return Err(Fail::new("no schema"));
    };
    let mut facts = Facts::none();
    match run(&schema, &mut facts, CaseRecord { number: 1, entries }) {
        Ok(()) => Err(Fail::new("the run did not stop")),
        Err(refusal) => Ok(refusal),
    }
}

fn at(place: usize, id: u8, refusal: StepRefusal) -> CaseRefusal {
    CaseRefusal::Step {
        place: Some(place),
        id,
        refusal,
    }
}

#[test]
fn what_is_no_step_stops(rt: HostRuntime) -> Result<(), Fail> {
    let kind = stopped(rt.alloc(), LOOPS, &[9, 1, N])?;
    assert_eq!(rt; kind, at(0, 1, StepRefusal::Node));
    let branch_of_a_start = stopped(rt.alloc(), LOOPS, &[START, 1, 0])?;
    assert_eq!(rt; branch_of_a_start, at(0, 1, StepRefusal::Node));
    let missing = stopped(rt.alloc(), LOOPS, &[START, 4, N])?;
    assert_eq!(rt; missing, at(0, 4, StepRefusal::Node));
    let other_kind = stopped(rt.alloc(), LOOPS, &[START, 5, N])?;
    assert_eq!(rt; other_kind, at(0, 5, StepRefusal::Node));
    let third_branch = stopped(rt.alloc(), LOOPS, &[CHOOSE, 5, 2])?;
    assert_eq!(rt; third_branch, at(0, 5, StepRefusal::Node));
    Ok(())
}

#[test]
fn a_step_out_of_turn_stops(rt: HostRuntime) -> Result<(), Fail> {
    let early = stopped(rt.alloc(), LOOPS, &[START, 1, N, CHOOSE, 5, 1])?;
    assert_eq!(rt; early, at(1, 5, StepRefusal::State));
    let twice = stopped(rt.alloc(), LOOPS, &[START, 1, N, START, 1, N, END, 1, N])?;
    assert_eq!(rt; twice, at(1, 1, StepRefusal::State));
    // the first entry that is wrong tells, though a later one says no step at all
    let first = stopped(rt.alloc(), LOOPS, &[END, 1, N, 9, 9, 9])?;
    assert_eq!(rt; first, at(0, 1, StepRefusal::State));
    Ok(())
}
