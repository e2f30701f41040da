// Reads schema lines from standard input, and prints for each its outline or why it is refused.
#![tactic(auto)]

mod help;

use help::HELP;
use input::next_line;
use outline::Outline;
use record::LineBuffer;
use schema::schema::Schema;
use schema::space::Space;
use std::alloc::Global;
use std::io::{BufReader, BufWriter, Write};
use usage::helped;

// Prints what was found in one line.
fn show<W: Write>(out: &mut W, heap: Global, number: u64, line: &LineBuffer) -> anyhow::Result<()> {
    let space = Space::new(heap)?;
    match Schema::read_buffered(space, line) {
        Ok(schema) => {
            let version = schema.version();
            let elements = schema.row().len();
            let edges = schema.edges().len();
            writeln!(
                out,
                "line {number}: schema version {version}, {elements} elements, {edges} sync edges"
            )?;
            let outline = Outline(&schema);
            write!(out, "{outline}")?;
        }
        Err(refusal) => writeln!(out, "line {number}: {refusal}")?,
    }
    Ok(())
}

fn run(rt: &HostRuntime) -> anyhow::Result<()> {
    let mut input = BufReader::new(rt.alloc(), rt.stdin())?;
    let mut out = BufWriter::new(rt.alloc(), rt.stdout())?;
    let mut line = LineBuffer::new();
    // a count, since input may never end and each loop is proved to end; a type of lines for `replay` too would not spare it
    for number in 1..u64::MAX {
        if !next_line(&mut input, &mut line)? {
            break;
        }
        show(&mut out, rt.alloc(), number, &line)?;
    }
    out.flush()?;
    Ok(())
}

fn main(rt: HostRuntime) -> anyhow::Result<()> {
    if helped(&rt, HELP)? {
        return Ok(());
    }
    run(&rt)
}
