// Cases judged one after the other, with a refusal of each layer.
use case::case::Case;
use entry_log::{Log, LogRecord};
use history::Store;
use judging::batch::Batch;
use model::Entry;
use record::LineBuffer;
use std::alloc::Global;
use std::process::Abort;
use std::test::Fail;
use worklist::{Board, Worklist};

// what stands in a place before anything is kept there
const BLANK: LogRecord = LogRecord::Noted(Entry::Leave(0));

// 1, then 2 beside 3, then 4
const SCHEMA: &[u8] = b"01000107010102FF010203FF010304FF010400";

// the sync edge from 2 to 3
const PLAN: &[u8] = b"0201050203FF";

// 2 runs and 3 has begun
const BESIDE: &[u8] = b"030000000700040101FF0201FF0102FF0103FF";

// 2 has ended and 3 has begun
const BEHIND: &[u8] = b"030000000800050101FF0201FF0102FF0202FF0103FF";

fn batch(heap: Global, schema: &[u8], plan: &[u8]) -> Result<Batch, Fail> {
    Ok(Batch::read(heap, schema, plan)?)
}

// Each line is judged as this verdict says, one after the other, by one case over this many places.
fn judges(
    rt: &impl Abort,
    batch: &Batch,
    row: &mut [LogRecord],
    lines: &[(&[u8], &[u8; 20])],
) -> Result<(), Fail> {
    let schema = batch.schema().ok_or("no schema")?;
    let mut case = Case::new(schema, Log::over(row), Board::new(), 99);
    for (line, verdict) in lines {
        assert!(rt; batch.judge(&mut case, line).line() == **verdict);
    }
    Ok(())
}

#[test]
fn an_edge_that_the_case_kept_lets_it_move(rt: HostRuntime) -> Result<(), Fail> {
    let batch = batch(rt.alloc(), SCHEMA, PLAN)?;
    let mut row = [BLANK; 8];
    judges(
        &rt,
        &batch,
        &mut row,
        &[
            (BESIDE, b"04000000072306000003"),
            (BEHIND, b"04000000080000FFFFFF"),
            (BESIDE, b"04000000072306000003"),
            (BEHIND, b"04000000080000FFFFFF"),
        ],
    )
}

#[test]
fn each_refusal_of_a_case_is_told(rt: HostRuntime) -> Result<(), Fail> {
    let batch = batch(rt.alloc(), SCHEMA, PLAN)?;
    let mut row = [BLANK; 4];
    judges(
        &rt,
        &batch,
        &mut row,
        &[
            // an empty line, one that is too short, one of another type
            (b"", b"04000000000105FFFFFF"),
            (b"030000000900040101FF", b"04000000000105FFFFFF"),
            (PLAN, b"04000000000105FFFFFF"),
            // no activity 9, no kind 5
            (b"030000000900020101FF0109FF", b"04000000091E06000109"),
            (b"030000000900010501FF", b"04000000091E06000001"),
            // 2 has to wait for 1
            (b"030000000900010102FF", b"04000000091F06000002"),
            // the store has four places
            (BEHIND, b"04000000082807000403"),
            // nothing is left of that
            (b"030000000900020101FF0201FF", b"04000000090000FFFFFF"),
        ],
    )
}

#[test]
fn a_finished_case_is_not_moved(rt: HostRuntime) -> Result<(), Fail> {
    let batch = batch(rt.alloc(), SCHEMA, PLAN)?;
    let mut row = [BLANK; 8];
    judges(
        &rt,
        &batch,
        &mut row,
        &[(
            b"030000000A00080101FF0201FF0102FF0202FF0103FF0203FF0104FF0204FF",
            b"040000000A2106FFFFFF",
        )],
    )
}

// Every case line is told this, since schema or plan is refused.
fn refuses(
    rt: &impl Abort,
    heap: Global,
    schema: &[u8],
    plan: &[u8],
    line: &[u8; 20],
) -> Result<(), Fail> {
    let batch = batch(heap, schema, plan)?;
    let verdict = batch.refusal().ok_or("not refused")?;
    assert!(rt; batch.schema().is_none());
    assert!(rt; verdict.line() == *line);
    Ok(())
}

#[test]
fn a_refused_schema_or_plan_is_told_of_every_case(rt: HostRuntime) -> Result<(), Fail> {
    let heap = rt.alloc();
    // the schema line is looked at first, then the schema, the plan line and the plan
    refuses(&rt, heap, b"", b"", b"04000000000101FFFFFF")?;
    refuses(&rt, heap, PLAN, PLAN, b"04000000000101FFFFFF")?;
    refuses(&rt, heap, b"0100010102FF00", b"", b"04000000000D020001FF")?;
    refuses(&rt, heap, SCHEMA, b"", b"04000000000103FFFFFF")?;
    refuses(&rt, heap, SCHEMA, SCHEMA, b"04000000000103FFFFFF")?;
    refuses(&rt, heap, SCHEMA, b"0201020AFFFF", b"0400000000160400000A")
}

// A case that a refused batch judges stays as it was.
#[test]
fn a_refused_batch_leaves_the_case(rt: HostRuntime) -> Result<(), Fail> {
    let heap = rt.alloc();
    let good = batch(heap, SCHEMA, PLAN)?;
    let bad = batch(heap, SCHEMA, b"")?;
    let schema = good.schema().ok_or("no schema")?;
    let mut row = [BLANK; 8];
    let mut case = Case::new(schema, Log::over(&mut row), Board::new(), 98);
    assert!(rt; good.judge(&mut case, BEHIND).refusal.is_none());
    assert!(rt; bad.judge(&mut case, BESIDE).line() == *b"04000000000103FFFFFF");
    assert!(rt; case.number() == 8);
    assert!(rt; case.store().len() == 5);
    Ok(())
}

// A case that is moved is on the changed schema, and waits there.
#[test]
fn a_moved_case_goes_on_on_the_changed_schema(rt: HostRuntime) -> Result<(), Fail> {
    let batch = batch(rt.alloc(), SCHEMA, PLAN)?;
    let schema = batch.schema().ok_or("no schema")?;
    let mut row = [BLANK; 8];
    let mut case = Case::new(schema, Log::over(&mut row), Board::new(), 99);
    let begun = batch.judge(&mut case, b"030000000B00020101FF0201FF");
    assert!(rt; begun.refusal.is_none() && begun.case == 11);
    assert!(rt; case.schema().version() == 2);
    assert!(rt; case.worklist().has(2) && !case.worklist().has(3));
    // a move that is refused leaves it loaded on the schema
    assert!(rt; batch.judge(&mut case, BESIDE).refusal.is_some());
    assert!(rt; case.schema().version() == 1);
    assert!(rt; case.store().len() == 4);
    Ok(())
}

// The line in a buffer, character by character.
fn buffered(characters: &[u8]) -> LineBuffer {
    let mut line = LineBuffer::new();
    for character in characters {
        line.push(*character);
    }
    line
}

#[test]
fn lines_in_buffers_are_judged_as_lines(rt: HostRuntime) -> Result<(), Fail> {
    let batch = Batch::read_buffered(rt.alloc(), &buffered(SCHEMA), &buffered(PLAN))?;
    let schema = batch.schema().ok_or("no schema")?;
    let mut row = [BLANK; 8];
    let mut case = Case::new(schema, Log::over(&mut row), Board::new(), 99);
    let case_line = buffered(BESIDE);
    let long = buffered(&[b'0'; 1026]);
    assert!(rt; batch.judge_buffered(&mut case, &case_line).line() == *b"04000000072306000003");
    assert!(rt; batch.judge_buffered(&mut case, &long).line() == *b"04000000000105FFFFFF");
    Ok(())
}

// The verdict on each case line of a refused batch, where its lines came in through buffers.
fn refuses_buffered(
    rt: &impl Abort,
    heap: Global,
    schema: &LineBuffer,
    plan: &LineBuffer,
    line: &[u8; 20],
) -> Result<(), Fail> {
    let batch = Batch::read_buffered(heap, schema, plan)?;
    let verdict = batch.refusal().ok_or("not refused")?;
    assert!(rt; verdict.line() == *line);
    Ok(())
}

#[test]
fn long_lines_are_refused_as_lines(rt: HostRuntime) -> Result<(), Fail> {
    let heap = rt.alloc();
    let long = buffered(&[b'0'; 1026]);
    refuses_buffered(&rt, heap, &long, &buffered(PLAN), b"04000000000101FFFFFF")?;
    refuses_buffered(&rt, heap, &buffered(SCHEMA), &long, b"04000000000103FFFFFF")
}
