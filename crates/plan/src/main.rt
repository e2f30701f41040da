// Makes plans of a schema, and prints what they leave of it. The first line of standard input is the schema, the others are
// plans.
#![tactic(auto)]

mod help;

use draft_rules::PlanRefusal;
use drafts::draft::Draft;
use drafts::plan::Plan;
use help::HELP;
use input::next_line;
use outline::{Outline, schema_line};
use record::LineBuffer;
use schema::schema::Schema;
use schema::space::Space;
use std::alloc::{AllocError, Global};
use std::fmt;
use std::io::{BufReader, BufWriter, Write};
use usage::helped;

// The plan that a line makes of the schema, or why it makes none.
fn plan_of(
    heap: Global,
    schema: &Schema,
    line: &LineBuffer,
) -> Result<Result<Plan, PlanRefusal>, AllocError> {
    let draft = Draft::begin(heap, schema)?;
    match line.line() {
        Some(line) => Ok(draft.read(line)),
        None => Ok(Err(PlanRefusal::Line)),
    }
}

// Prints the changed schema: its outline, and the line that writes it.
fn show<W: Write>(out: &mut W, number: u64, changed: &Schema) -> anyhow::Result<()> {
    let version = changed.version();
    let elements = changed.row().len();
    let edges = changed.edges().len();
    writeln!(
        out,
        "plan {number}: schema version {version}, {elements} elements, {edges} sync edges"
    )?;
    let outline = Outline(changed);
    write!(out, "{outline}")?;
    let line = schema_line(changed);
    out.write_all(line.as_slice())?;
    writeln!(out)?;
    Ok(())
}

// Prints why there is no changed schema.
fn refuse<W: Write, R: fmt::Display>(out: &mut W, number: u64, refusal: &R) -> anyhow::Result<()> {
    writeln!(out, "plan {number}: {refusal}")?;
    Ok(())
}

fn run(rt: &HostRuntime) -> anyhow::Result<()> {
    let mut input = BufReader::new(rt.alloc(), rt.stdin())?;
    let mut out = BufWriter::new(rt.alloc(), rt.stdout())?;
    let mut line = LineBuffer::new();
    if !next_line(&mut input, &mut line)? {
        return Ok(());
    }
    let space = Space::new(rt.alloc())?;
    let schema = Schema::read_buffered(space, &line);
    // a count, since input may never end and each loop is proved to end
    for number in 1..u64::MAX {
        if !next_line(&mut input, &mut line)? {
            break;
        }
        match &schema {
            Ok(schema) => match plan_of(rt.alloc(), schema, &line)? {
                Ok(plan) => show(&mut out, number, plan.released())?,
                Err(refusal) => refuse(&mut out, number, &refusal)?,
            },
            Err(refusal) => refuse(&mut out, number, refusal)?,
        }
    }
    out.flush()?;
    Ok(())
}

fn main(rt: HostRuntime) -> anyhow::Result<()> {
    if helped(&rt, HELP)? {
        return Ok(());
    }
    run(&rt)
}
