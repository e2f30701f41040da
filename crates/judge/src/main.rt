// Judges cases. The first line of standard input is a schema, the second a plan, each other a case; for each case its verdict
// is printed.
#![tactic(auto)]

mod help;

use case::case::Case;
use entry_log::{Log, LogRecord};
use help::HELP;
use input::next_line;
use judging::batch::Batch;
use model::Entry;
use record::LineBuffer;
use schema::schema::Schema;
use std::io::{BufRead, BufReader, BufWriter, Write};
use usage::helped;
use verdicts::Verdict;
use worklist::Board;

// How many places the log of a case has.
const PLACES: usize = 128;

fn tell<W: Write>(out: &mut W, verdict: Verdict) -> anyhow::Result<()> {
    out.write_all(&verdict.line())?;
    out.write_all(b"\n")?;
    Ok(())
}

// Judges the cases that the lines write, in one case object one after the other.
fn judge_lines<R: BufRead, W: Write>(
    input: &mut R,
    out: &mut W,
    batch: &Batch,
    schema: &Schema,
) -> anyhow::Result<()> {
    let mut places = [LogRecord::Noted(Entry::Leave(0)); PLACES];
    let mut case = Case::new(schema, Log::over(&mut places), Board::new(), 0);
    let mut line = LineBuffer::new();
    // a count, since input may never end and each loop is proved to end
    for _ in 0..u64::MAX {
        if !next_line(input, &mut line)? {
            break;
        }
        tell(out, batch.judge_buffered(&mut case, &line))?;
    }
    Ok(())
}

// Tells the same verdict for each line.
fn refuse_lines<R: BufRead, W: Write>(
    input: &mut R,
    out: &mut W,
    verdict: Verdict,
) -> anyhow::Result<()> {
    let mut line = LineBuffer::new();
    // a count, as above
    for _ in 0..u64::MAX {
        if !next_line(input, &mut line)? {
            break;
        }
        tell(out, verdict)?;
    }
    Ok(())
}

fn run(rt: &HostRuntime) -> anyhow::Result<()> {
    let mut input = BufReader::new(rt.alloc(), rt.stdin())?;
    let mut out = BufWriter::new(rt.alloc(), rt.stdout())?;
    let mut schema = LineBuffer::new();
    let mut plan = LineBuffer::new();
    if !next_line(&mut input, &mut schema)? || !next_line(&mut input, &mut plan)? {
        return Ok(());
    }
    let batch = Batch::read_buffered(rt.alloc(), &schema, &plan)?;
    if let Some(schema) = batch.schema() {
        judge_lines(&mut input, &mut out, &batch, schema)?;
    }
    if let Some(verdict) = batch.refusal() {
        refuse_lines(&mut input, &mut out, verdict)?;
    }
    out.flush()?;
    Ok(())
}

fn main(rt: HostRuntime) -> anyhow::Result<()> {
    if helped(&rt, HELP)? {
        return Ok(());
    }
    run(&rt)
}
