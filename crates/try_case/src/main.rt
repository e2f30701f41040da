// Takes a case through its life, call by call. The first line of standard input is its schema; each other line is a call:
// `open 7`, `start 1`, `finish 1`, `choose 5 1`, `leave 9`, `again 9`, or a case line, which is loaded.
#![tactic(auto)]

mod help;

use anyhow::anyhow;
use case::case::Case;
use entry_log::{Log, LogRecord};
use help::HELP;
use input::next_line;
use input::words::{NoCall, Words, text_of};
use listing::{History, Ids};
use lives::CallRefusal;
use model::Entry;
use queue::Queue;
use record::LineBuffer;
use schema::schema::Schema;
use schema::space::Space;
use std::io::{BufRead, BufReader, BufWriter, Write};
use usage::helped;

type LoggedCase<'s, 'a> = Case<'s, Log<'a>, Queue>;

// How many places the log of the case has.
const PLACES: usize = 16;

// What a user asks of the case.
#[derive(Clone, Copy)]
enum Call {
    Open(u32),
    Start(u8),
    Finish(u8),
    Choose(u8, u8),
    Leave(u8),
    Again(u8),
}

// The call that a line says, or why it says none.
fn call_of(line: &str) -> Result<Call, NoCall> {
    let mut words = Words::of(line);
    let call = match words.name() {
        "open" => Call::Open(words.number()?),
        "start" => Call::Start(words.byte()?),
        "finish" => Call::Finish(words.byte()?),
        "choose" => Call::Choose(words.byte()?, words.byte()?),
        "leave" => Call::Leave(words.byte()?),
        "again" => Call::Again(words.byte()?),
        _ => return Err(NoCall::Name),
    };
    words.end()?;
    Ok(call)
}

fn make(case: &mut LoggedCase<'_, '_>, call: Call) -> Result<(), CallRefusal> {
    match call {
        Call::Open(number) => {
            case.open(number);
            Ok(())
        }
        Call::Start(id) => case.start(id),
        Call::Finish(id) => case.finish(id),
        Call::Choose(id, branch) => case.choose(id, branch),
        Call::Leave(id) => case.leave(id),
        Call::Again(id) => case.again(id),
    }
}

// Makes the call that a line says, or loads the case that it writes.
fn answer(case: &mut LoggedCase<'_, '_>, line: &str) -> Result<Result<(), CallRefusal>, NoCall> {
    // a case record begins with its type, 03
    if line.starts_with("03") {
        return Ok(case.load(line.as_bytes()));
    }
    Ok(make(case, call_of(line)?))
}

// Tells what came of a call, and what worklist and store then hold.
fn show<W: Write>(
    out: &mut W,
    case: &LoggedCase<'_, '_>,
    answer: Result<(), CallRefusal>,
) -> anyhow::Result<()> {
    match answer {
        Ok(()) => write!(out, "done")?,
        Err(refusal) => write!(out, "{refusal}")?,
    }
    let offered = Ids(case.worklist().as_slice());
    let history = History(case.store());
    let end = if case.is_finished() { "; finished" } else { "" };
    writeln!(out, "; offered {offered}; history {history}{end}")?;
    Ok(())
}

// Takes the case through what one line says.
fn take<W: Write>(
    out: &mut W,
    case: &mut LoggedCase<'_, '_>,
    line: &LineBuffer,
) -> anyhow::Result<()> {
    let text = text_of(line)?;
    let answer = answer(case, text)?;
    write!(out, "{text}: ")?;
    show(out, case, answer)
}

// Takes a case of the schema from call to call, until the input ends or a line is no call.
fn live<R: BufRead, W: Write>(input: &mut R, out: &mut W, schema: &Schema) -> anyhow::Result<()> {
    let mut places = [LogRecord::Noted(Entry::Leave(0)); PLACES];
    let mut case = Case::new(schema, Log::over(&mut places), Queue::new(), 0);
    let mut line = LineBuffer::new();
    // a count, since input may never end and each loop is proved to end; the schema was line 1
    for number in 2..u64::MAX {
        if !next_line(input, &mut line)? {
            break;
        }
        take(out, &mut case, &line).map_err(|error| anyhow!("line {number}: {error}"))?;
    }
    Ok(())
}

fn run(rt: &HostRuntime) -> anyhow::Result<()> {
    let mut input = BufReader::new(rt.alloc(), rt.stdin())?;
    let mut out = BufWriter::new(rt.alloc(), rt.stdout())?;
    let mut line = LineBuffer::new();
    if !next_line(&mut input, &mut line)? {
        return Ok(());
    }
    let space = Space::new(rt.alloc())?;
    match Schema::read_buffered(space, &line) {
        Ok(schema) => {
            let lived = live(&mut input, &mut out, &schema);
            // what came before a line that is no call is told too
            out.flush()?;
            lived
        }
        Err(refusal) => Err(anyhow!("line 1: {refusal}")),
    }
}

fn main(rt: HostRuntime) -> anyhow::Result<()> {
    if helped(&rt, HELP)? {
        return Ok(());
    }
    run(&rt)
}
