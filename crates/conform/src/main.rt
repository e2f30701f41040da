// Judges cases twice, by looking and by replaying, and tells whether both agree. The first line of standard input is a schema,
// the second a plan, each other a case.
#![tactic(auto)]

mod help;

use case::case::Case;
use case_record::CaseRecord;
use drafts::draft::Draft;
use drafts::plan::Plan;
use entry_log::{Log, LogRecord};
use facts::Facts;
use help::HELP;
use input::next_line;
use judging::batch::Batch;
use lives::CallRefusal;
use marking::marking::Marking;
use model::Entry;
use model::refusal::{CaseRefusal, Reason};
use record::{LineBuffer, Record};
use runs::histories::run;
use schema::schema::Schema;
use schema::space::Space;
use std::alloc::{AllocError, Global};
use std::io::{BufRead, BufReader, BufWriter, Write};
use usage::helped;
use verdicts::Verdict;
use worklist::Board;

// How many places the log of a case has.
const PLACES: usize = 128;

// What a replay has of a batch. Of the plan it asks only the schema that it gives.
#[derive(Drop)]
struct Base {
    schema: Schema,
    plan: Plan,
}

// The characters of a line; none of one that is too long, which is refused as an empty one is.
fn characters(line: &LineBuffer) -> &[u8] {
    line.line().unwrap_or(b"")
}

// The schema and the plan of two lines, or why one of them is refused.
fn read_base(
    heap: Global,
    schema: &LineBuffer,
    plan: &LineBuffer,
) -> Result<Result<Base, Reason>, AllocError> {
    let space = Space::new(heap)?;
    match Schema::read(space, characters(schema)) {
        Ok(schema) => read_plan(heap, schema, plan),
        Err(refusal) => Ok(Err(Reason::from(refusal))),
    }
}

fn read_plan(
    heap: Global,
    schema: Schema,
    line: &LineBuffer,
) -> Result<Result<Base, Reason>, AllocError> {
    let draft = Draft::begin(heap, &schema)?;
    match draft.read(characters(line)) {
        Ok(plan) => Ok(Ok(Base { schema, plan })),
        Err(refusal) => Ok(Err(Reason::from(refusal))),
    }
}

// A move that is refused for a change. Which it is, and by which node, a replay cannot tell.
fn failed() -> Reason {
    Reason {
        place: None,
        id: None,
        ..Reason::from(CallRefusal::Change { place: 0, id: 0 })
    }
}

// Why a history is not moved: it does not run on the schema, or is finished by it, or does not run on the changed schema.
fn replay(base: &Base, history: CaseRecord<'_>) -> Option<Reason> {
    let mut facts = Facts::none();
    if let Err(refusal) = run(&base.schema, &mut facts, history) {
        return Some(Reason::from(refusal));
    }
    if Marking::of(&base.schema, &facts).is_finished() {
        return Some(Reason::from(CallRefusal::Finished));
    }
    let mut again = Facts::none();
    if run(base.plan.released(), &mut again, history).is_err() {
        return Some(failed());
    }
    None
}

// The verdict on a line that writes no case.
fn no_case() -> Verdict {
    Verdict {
        refusal: Some(Reason::from(CaseRefusal::Line)),
        case: 0,
    }
}

// The verdict of a replay.
fn replayed(base: &Base, line: &LineBuffer) -> Verdict {
    let Ok(record) = Record::try_from(characters(line)) else {
        return no_case();
    };
    let Ok(history) = CaseRecord::try_from(record.bytes()) else {
        return no_case();
    };
    Verdict {
        refusal: replay(base, history),
        case: history.number,
    }
}

// The verdict without what a replay cannot know: which change may not be made, and by which node.
fn comparable(verdict: Verdict) -> Verdict {
    match verdict.refusal {
        Some(reason) if reason.number == failed().number => Verdict {
            refusal: Some(failed()),
            case: verdict.case,
        },
        _ => verdict,
    }
}

// How many lines were judged, and on how many both verdicts agree.
#[derive(Clone, Copy)]
struct Counts {
    cases: u64,
    agreed: u64,
}

impl Counts {
    fn none() -> Counts {
        Counts {
            cases: 0,
            agreed: 0,
        }
    }

    fn with(self, agrees: bool) -> Counts {
        Counts {
            cases: self.cases.saturating_add(1),
            agreed: self.agreed.saturating_add(u64::from(agrees)),
        }
    }
}

// Tells both verdicts and whether they agree.
fn tell<W: Write>(out: &mut W, judged: Verdict, replayed: Verdict) -> anyhow::Result<bool> {
    let agrees = comparable(judged) == replayed;
    out.write_all(&judged.line())?;
    out.write_all(b" ")?;
    out.write_all(&replayed.line())?;
    out.write_all(if agrees { b" agree\n" } else { b" differ\n" })?;
    Ok(agrees)
}

// Judges each line both ways, over one case object.
fn compare_lines<R: BufRead, W: Write>(
    input: &mut R,
    out: &mut W,
    batch: &Batch,
    base: &Base,
) -> anyhow::Result<Counts> {
    let mut places = [LogRecord::Noted(Entry::Leave(0)); PLACES];
    let mut case = Case::new(&base.schema, Log::over(&mut places), Board::new(), 0);
    let mut line = LineBuffer::new();
    let mut counts = Counts::none();
    // a count, since input may never end and each loop is proved to end
    for _ in 0..u64::MAX {
        if !next_line(input, &mut line)? {
            break;
        }
        let judged = batch.judge_buffered(&mut case, &line);
        counts = counts.with(tell(out, judged, replayed(base, &line))?);
    }
    Ok(counts)
}

// Tells the same two verdicts for each line.
fn refuse_lines<R: BufRead, W: Write>(
    input: &mut R,
    out: &mut W,
    judged: Verdict,
    replayed: Verdict,
) -> anyhow::Result<Counts> {
    let mut line = LineBuffer::new();
    let mut counts = Counts::none();
    // a count, as above
    for _ in 0..u64::MAX {
        if !next_line(input, &mut line)? {
            break;
        }
        counts = counts.with(tell(out, judged, replayed)?);
    }
    Ok(counts)
}

// Judges the cases of the input, if it has a schema line and a plan line.
fn compare<R: BufRead, W: Write>(
    heap: Global,
    input: &mut R,
    out: &mut W,
) -> anyhow::Result<Counts> {
    let mut schema = LineBuffer::new();
    let mut plan = LineBuffer::new();
    if !next_line(input, &mut schema)? || !next_line(input, &mut plan)? {
        return Ok(Counts::none());
    }
    let batch = Batch::read_buffered(heap, &schema, &plan)?;
    match read_base(heap, &schema, &plan)? {
        Ok(base) => compare_lines(input, out, &batch, &base),
        Err(reason) => {
            // a batch that is not refused would be told as moving case 0, which is no refusal
            let judged = batch.refusal().unwrap_or(Verdict {
                refusal: None,
                case: 0,
            });
            let replayed = Verdict {
                refusal: Some(reason),
                case: 0,
            };
            refuse_lines(input, out, judged, replayed)
        }
    }
}

fn run_all(rt: &HostRuntime) -> anyhow::Result<()> {
    let mut input = BufReader::new(rt.alloc(), rt.stdin())?;
    let mut out = BufWriter::new(rt.alloc(), rt.stdout())?;
    let counts = compare(rt.alloc(), &mut input, &mut out)?;
    let differ = counts.cases.saturating_sub(counts.agreed);
    writeln!(
        out,
        "{} cases: {} agree, {differ} differ",
        counts.cases, counts.agreed
    )?;
    out.flush()?;
    Ok(())
}

fn main(rt: HostRuntime) -> anyhow::Result<()> {
    if helped(&rt, HELP)? {
        return Ok(());
    }
    run_all(&rt)
}
