// Judges batches whose verdicts are known. A batch is a schema line, a plan line, and case lines with the expected verdict
// under each; a line `#` ends it. Each verdict that differs is told, and at the end how many are as expected.
#![tactic(auto)]

mod help;

use anyhow::bail;
use case::case::Case;
use entry_log::{Log, LogRecord};
use help::HELP;
use input::next_line;
use judging::batch::Batch;
use model::Entry;
use record::LineBuffer;
use schema::schema::Schema;
use std::alloc::Global;
use std::io::{BufRead, BufReader, BufWriter, Write};
use usage::helped;
use verdicts::Verdict;
use worklist::Board;

// How many places the log of a case has.
const PLACES: usize = 128;

// The input, and how many of its lines were read.
#[derive(Drop)]
struct Lines<R> {
    input: R,
    number: u64,
}

impl<R: BufRead> Lines<R> {
    // Reads the next line; `false` where the input has ended.
    fn next(&mut self, line: &mut LineBuffer) -> anyhow::Result<bool> {
        self.number = self.number.saturating_add(1);
        Ok(next_line(&mut self.input, line)?)
    }

    // Reads a line that must be there.
    fn next_or_missing(&mut self, line: &mut LineBuffer, name: &str) -> anyhow::Result<()> {
        if !self.next(line)? || is_end(line) {
            bail!("line {}: {name} is missing", self.number);
        }
        Ok(())
    }
}

// Whether a line ends the batch.
fn is_end(line: &LineBuffer) -> bool {
    line.line() == Some(b"#".as_slice())
}

// How many verdicts there were, and how many were as expected.
#[derive(Clone, Copy)]
struct Tally {
    judged: u64,
    right: u64,
}

impl Tally {
    // Compares a verdict with the line that is expected, which comes next.
    fn note<R: BufRead, W: Write>(
        &mut self,
        lines: &mut Lines<R>,
        out: &mut W,
        verdict: Verdict,
    ) -> anyhow::Result<()> {
        let mut expected = LineBuffer::new();
        lines.next_or_missing(&mut expected, "the verdict that is expected")?;
        let written = verdict.line();
        self.judged = self.judged.saturating_add(1);
        if expected.line() == Some(written.as_slice()) {
            self.right = self.right.saturating_add(1);
        } else {
            write!(out, "line {}: ", lines.number)?;
            out.write_all(&written)?;
            writeln!(out, " is the verdict, and not expected")?;
        }
        Ok(())
    }
}

// The cases of a batch, each judged in one case object after the other.
fn judge_all<R: BufRead, W: Write>(
    lines: &mut Lines<R>,
    out: &mut W,
    batch: &Batch,
    schema: &Schema,
    tally: &mut Tally,
) -> anyhow::Result<()> {
    let mut places = [LogRecord::Noted(Entry::Leave(0)); PLACES];
    let mut case = Case::new(schema, Log::over(&mut places), Board::new(), 0);
    let mut line = LineBuffer::new();
    // a count, since input may never end and each loop is proved to end
    for _ in 0..u64::MAX {
        if !lines.next(&mut line)? || is_end(&line) {
            break;
        }
        tally.note(lines, out, batch.judge_buffered(&mut case, &line))?;
    }
    Ok(())
}

// The cases of a batch that is refused all have one verdict.
fn refuse_all<R: BufRead, W: Write>(
    lines: &mut Lines<R>,
    out: &mut W,
    verdict: Verdict,
    tally: &mut Tally,
) -> anyhow::Result<()> {
    let mut line = LineBuffer::new();
    // a count, as above
    for _ in 0..u64::MAX {
        if !lines.next(&mut line)? || is_end(&line) {
            break;
        }
        tally.note(lines, out, verdict)?;
    }
    Ok(())
}

// Judges batch after batch, until the input ends.
fn judge_batches<R: BufRead, W: Write>(
    heap: Global,
    lines: &mut Lines<R>,
    out: &mut W,
) -> anyhow::Result<Tally> {
    let mut schema = LineBuffer::new();
    let mut plan = LineBuffer::new();
    let mut tally = Tally {
        judged: 0,
        right: 0,
    };
    // a count, as above
    for _ in 0..u64::MAX {
        if !lines.next(&mut schema)? {
            break;
        }
        lines.next_or_missing(&mut plan, "a plan line")?;
        let batch = Batch::read_buffered(heap, &schema, &plan)?;
        if let Some(schema) = batch.schema() {
            judge_all(lines, out, &batch, schema, &mut tally)?;
        } else if let Some(verdict) = batch.refusal() {
            refuse_all(lines, out, verdict, &mut tally)?;
        }
    }
    Ok(tally)
}

fn run(rt: &HostRuntime) -> anyhow::Result<()> {
    let mut lines = Lines {
        input: BufReader::new(rt.alloc(), rt.stdin())?,
        number: 0,
    };
    let mut out = BufWriter::new(rt.alloc(), rt.stdout())?;
    let judged = judge_batches(rt.alloc(), &mut lines, &mut out);
    // what came before a line that is missing is told too
    out.flush()?;
    let tally = judged?;
    println!(rt; "{} verdicts, {} as expected", tally.judged, tally.right)?;
    if tally.right < tally.judged {
        bail!("not all verdicts are as expected");
    }
    Ok(())
}

fn main(rt: HostRuntime) -> anyhow::Result<()> {
    if helped(&rt, HELP)? {
        return Ok(());
    }
    run(&rt)
}
