// Takes a store of each kind and a worklist of each kind through what the lines of standard input say: `start 1`, `end 1`,
// `choose 5 1` and `leave 9` add an entry, `purge 1 5` purges these nodes, `clear` empties; `offer 1`, `withdraw 1`, and
// `want 1 5`, which brings the worklists in step. What each then holds is printed.
#![tactic(auto)]

mod help;

use anyhow::anyhow;
use entry_log::{Log, LogRecord};
use help::HELP;
use history::{Full, Store};
use ids::IdSet;
use input::next_line;
use input::words::{NoCall, Words, byte_of, text_of};
use listing::{History, Ids, Offered};
use model::Entry;
use queue::Queue;
use record::LineBuffer;
use std::io::{BufRead, BufReader, BufWriter, Write};
use table::CompactedTable;
use usage::helped;
use worklist::{Board, Worklist, bring_in_step};

// How many places each store has.
const PLACES: usize = 4;

// What stands in a place before anything is kept there.
const BLANK: Entry = Entry::Leave(0);

// What a line asks for.
#[derive(Clone, Copy)]
enum Call {
    Clear,
    Add(Entry),
    Purge(IdSet),
    Offer(u8),
    Withdraw(u8),
    Want(IdSet),
}

// The set of the ids that are left.
fn ids_of(words: Words<'_>) -> Result<IdSet, NoCall> {
    let mut ids = IdSet::empty();
    for word in words.rest() {
        ids = ids.with(Some(byte_of(word)?));
    }
    Ok(ids)
}

// The call that a line says, or why it says none.
fn call_of(line: &str) -> Result<Call, NoCall> {
    let mut words = Words::of(line);
    let call = match words.name() {
        "clear" => Call::Clear,
        "start" => Call::Add(Entry::Start(words.byte()?)),
        "end" => Call::Add(Entry::End(words.byte()?)),
        "choose" => Call::Add(Entry::Choose(words.byte()?, words.byte()?)),
        "leave" => Call::Add(Entry::Leave(words.byte()?)),
        "purge" => return Ok(Call::Purge(ids_of(words)?)),
        "offer" => Call::Offer(words.byte()?),
        "withdraw" => Call::Withdraw(words.byte()?),
        "want" => return Ok(Call::Want(ids_of(words)?)),
        _ => return Err(NoCall::Name),
    };
    words.end()?;
    Ok(call)
}

// Makes a call on a store; one that is for worklists changes nothing.
fn keep<S: Store>(store: &mut S, call: Call) -> Result<(), Full> {
    match call {
        Call::Clear => {
            store.clear();
            Ok(())
        }
        Call::Add(entry) => store.add(entry),
        Call::Purge(ids) => store.purge(ids),
        Call::Offer(_) | Call::Withdraw(_) | Call::Want(_) => Ok(()),
    }
}

// Makes a call on a worklist; one that is for stores changes nothing.
fn offer<W: Worklist>(worklist: &mut W, call: Call) {
    match call {
        Call::Clear => worklist.clear(),
        Call::Offer(id) => worklist.offer(id),
        Call::Withdraw(id) => worklist.withdraw(id),
        Call::Want(ids) => bring_in_step(worklist, ids),
        Call::Add(_) | Call::Purge(_) => {}
    }
}

// Tells what came of a call on a store, and what it then holds.
fn show<S: Store, W: Write>(
    out: &mut W,
    name: &str,
    store: &S,
    answer: Result<(), Full>,
) -> anyhow::Result<()> {
    let said = if answer.is_ok() { "done" } else { "no place" };
    writeln!(out, "  {name}: {said}; {}", History(store))?;
    Ok(())
}

// The stores and worklists that the calls are made on.
#[derive(Drop)]
struct Shelf<'l, 't> {
    log: Log<'l>,
    table: CompactedTable<'t>,
    board: Board,
    queue: Queue,
}

impl Shelf<'_, '_> {
    fn make<W: Write>(&mut self, out: &mut W, call: Call) -> anyhow::Result<()> {
        let logged = keep(&mut self.log, call);
        show(out, "log", &self.log, logged)?;
        let tabled = keep(&mut self.table, call);
        show(out, "table", &self.table, tabled)?;
        offer(&mut self.board, call);
        offer(&mut self.queue, call);
        writeln!(
            out,
            "  board: {}; queue: {}",
            Offered(&self.board),
            Ids(self.queue.as_slice())
        )?;
        Ok(())
    }
}

// Takes all of them through what one line says.
fn take<W: Write>(out: &mut W, shelf: &mut Shelf<'_, '_>, line: &LineBuffer) -> anyhow::Result<()> {
    let text = text_of(line)?;
    let call = call_of(text)?;
    writeln!(out, "{text}")?;
    shelf.make(out, call)
}

// Takes them from line to line, until the input ends or a line is no call.
fn take_all<R: BufRead, W: Write>(input: &mut R, out: &mut W) -> anyhow::Result<()> {
    let mut records = [LogRecord::Noted(BLANK); PLACES];
    let mut entries = [BLANK; PLACES];
    let mut shelf = Shelf {
        log: Log::over(&mut records),
        table: CompactedTable::over(&mut entries),
        board: Board::new(),
        queue: Queue::new(),
    };
    let mut line = LineBuffer::new();
    // a count, since input may never end and each loop is proved to end
    for number in 1..u64::MAX {
        if !next_line(input, &mut line)? {
            break;
        }
        take(out, &mut shelf, &line).map_err(|error| anyhow!("line {number}: {error}"))?;
    }
    Ok(())
}

fn run(rt: &HostRuntime) -> anyhow::Result<()> {
    let mut input = BufReader::new(rt.alloc(), rt.stdin())?;
    let mut out = BufWriter::new(rt.alloc(), rt.stdout())?;
    let taken = take_all(&mut input, &mut out);
    // what came before a line that is no call is told too
    out.flush()?;
    taken
}

fn main(rt: HostRuntime) -> anyhow::Result<()> {
    if helped(&rt, HELP)? {
        return Ok(());
    }
    run(&rt)
}
