// Replays cases on a schema, entry by entry. The first line of standard input is the schema, the others are cases.
#![tactic(auto)]

mod help;

use case_record::CaseRecord;
use facts::Facts;
use help::HELP;
use input::next_line;
use marking::marking::Marking;
use model::refusal::CaseRefusal;
use model::{Entry, State};
use record::{LineBuffer, Record};
use runs::histories::run;
use runs::steps::step;
use schema::schema::Schema;
use schema::space::Space;
use std::fmt;
use std::io::{BufReader, BufWriter, Write};
use usage::helped;

// Prints as the ids of the nodes in a state, ascending, with the branch of those that decided one.
#[derive(Clone, Copy)]
struct Nodes<'a> {
    marking: &'a Marking,
    state: State,
}

impl<'a> Nodes<'a> {
    fn of(marking: &'a Marking, state: State) -> Nodes<'a> {
        Nodes { marking, state }
    }
}

impl fmt::Display for Nodes<'_> {
    fn fmt<W: fmt::Write>(&self, f: &mut fmt::Formatter<W>) -> fmt::Result {
        let mut none = true;
        // over all ids: a marking is asked by id, and lists none
        for id in 0..64u8 {
            if self.marking.state(id) == Some(self.state) {
                none = false;
                match self.marking.branch(id) {
                    Some(branch) => write!(f, " {id}:{branch}")?,
                    None => write!(f, " {id}")?,
                }
            }
        }
        if none {
            write!(f, " -")?;
        }
        Ok(())
    }
}

// Prints as what the nodes are doing.
#[derive(Clone, Copy)]
struct Summary<'a>(&'a Marking);

impl fmt::Display for Summary<'_> {
    fn fmt<W: fmt::Write>(&self, f: &mut fmt::Formatter<W>) -> fmt::Result {
        let activated = Nodes::of(self.0, State::Activated);
        let running = Nodes::of(self.0, State::Running);
        let completed = Nodes::of(self.0, State::Completed);
        let skipped = Nodes::of(self.0, State::Skipped);
        let not_activated = Nodes::of(self.0, State::NotActivated);
        write!(
            f,
            "activated{activated}; running{running}; completed{completed}; "
        )?;
        write!(f, "skipped{skipped}; not activated{not_activated}")?;
        if self.0.is_finished() {
            write!(f, "; finished")?;
        }
        Ok(())
    }
}

// Prints as the replay of a case on a schema: a trace, and last what it came to.
#[derive(Clone, Copy)]
struct Replay<'s, 'h> {
    schema: &'s Schema,
    history: CaseRecord<'h>,
}

impl Replay<'_, '_> {
    // A line for each entry up to the first that is refused: its place, what it is, and what is activated after it.
    fn trace<W: fmt::Write>(&self, f: &mut fmt::Formatter<W>) -> fmt::Result {
        let mut facts = Facts::none();
        for (place, raw) in self.history.iter().enumerate() {
            let Ok(entry) = Entry::try_from(raw) else {
                return Ok(());
            };
            if step(self.schema, &mut facts, entry).is_err() {
                return Ok(());
            }
            let marking = Marking::of(self.schema, &facts);
            let activated = Nodes::of(&marking, State::Activated);
            writeln!(f, "{place:>5} {entry}: activated{activated}")?;
        }
        Ok(())
    }
}

impl fmt::Display for Replay<'_, '_> {
    fn fmt<W: fmt::Write>(&self, f: &mut fmt::Formatter<W>) -> fmt::Result {
        self.trace(f)?;
        // the history goes through a second time: what it came to is told by `run`, which is proved of all its entries
        let mut facts = Facts::none();
        let ran = run(self.schema, &mut facts, self.history);
        let number = self.history.number;
        match ran {
            Ok(()) => {
                let entries = self.history.len();
                let marking = Marking::of(self.schema, &facts);
                let summary = Summary(&marking);
                writeln!(f, "case {number}: runs, {entries} entries; {summary}")
            }
            Err(refusal) => writeln!(f, "case {number}: {refusal}"),
        }
    }
}

// What is told of a line that says no case, or of any line after a refused schema.
fn refuse<W: Write, R: fmt::Display>(out: &mut W, refusal: &R) -> anyhow::Result<()> {
    writeln!(out, "case 0: {refusal}")?;
    Ok(())
}

// The record that a line spells, if it spells one.
fn record_of(line: &LineBuffer) -> Option<Record> {
    Record::try_from(line.line()?).ok()
}

// Replays the case that a line says, or tells that it says none: in two steps, since the case borrows from the record.
fn replay_line<W: Write>(out: &mut W, schema: &Schema, line: &LineBuffer) -> anyhow::Result<()> {
    let Some(record) = record_of(line) else {
        return refuse(out, &CaseRefusal::Line);
    };
    let Ok(history) = CaseRecord::try_from(record.bytes()) else {
        return refuse(out, &CaseRefusal::Line);
    };
    let replay = Replay { schema, history };
    write!(out, "{replay}")?;
    Ok(())
}

fn run_all(rt: &HostRuntime) -> anyhow::Result<()> {
    let mut input = BufReader::new(rt.alloc(), rt.stdin())?;
    let mut out = BufWriter::new(rt.alloc(), rt.stdout())?;
    let mut line = LineBuffer::new();
    if !next_line(&mut input, &mut line)? {
        return Ok(());
    }
    let space = Space::new(rt.alloc())?;
    let schema = Schema::read_buffered(space, &line);
    // a count, since input may never end and each loop is proved to end; a type of lines for `inspect` too would not spare it
    for _ in 0..u64::MAX {
        if !next_line(&mut input, &mut line)? {
            break;
        }
        match &schema {
            Ok(schema) => replay_line(&mut out, schema, &line)?,
            Err(refusal) => refuse(&mut out, refusal)?,
        }
    }
    out.flush()?;
    Ok(())
}

fn main(rt: HostRuntime) -> anyhow::Result<()> {
    if helped(&rt, HELP)? {
        return Ok(());
    }
    run_all(&rt)
}
