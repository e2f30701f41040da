// The signal of every gap of a row, in one pass.
ghost use Rattle.std.specs.Prelude.{◌≡◌, ◌+◌, ◌≤◌, length, take};
ghost use Rattle.model.specs.Signals.{is_done, and_joined};
ghost use Rattle.marking.specs.Machine.{choice_of, chosen, turned, xor_joined, moves, start, signals};

use facts::Facts;
use model::{Element, Fact, Signal};
use stack::{Move, Stack};

// The decided branch of an XOR block, seen from the branch that is being read: none, that many bars
// ahead (this one at 0), or behind, with the signal that ended it. An `Option` of the last two would be no plainer:
// `head` looks for `Ahead` and `Undecided`, `turned` for `Ahead` alone, and `joined` for `Behind`.
#[derive(Clone, Copy)]
pub enum Choice {
    Undecided,
    Ahead(u8),
    Behind(Signal),
}

// An open AND or XOR block. Each flag is told apart from the value beside it, and neither hangs on the other.
#[derive(Clone, Copy)]
pub enum Opened {
    // the signal before the split, and whether each branch so far ended true
    And(Signal, bool),
    // whether the decision is skipped
    Xor(bool, Choice),
}

// Whether a node is done with, if it is not skipped.
pub(crate) fn is_done(fact: Fact) -> bool
    ensures { result ≡ is_done fact }
{
    matches!(fact, Fact::Ended | Fact::Decided(_) | Fact::Left)
}

// The signal after a node, from its own signal and whether it is done, or after an AND join, from the signal before the
// split and whether every branch ended true.
fn after(before: Signal, done: bool) -> Signal
    ensures { result ≡ and_joined before done }
{
    match (before, done) {
        (Signal::False, _) => Signal::False,
        (_, true) => Signal::True,
        (_, false) => Signal::None,
    }
}

// What the fact of its decision says before the first branch.
impl From<Fact> for Choice {
    ghost from_gives = { λ fact choice. choice ≡ choice_of fact };

    fn from(fact: Fact) -> Choice {
        match fact {
            Fact::Decided(branch) => Choice::Ahead(branch),
            _ => Choice::Undecided,
        }
    }
}

impl Choice {
    // The signal at the head of the branch that is read.
    fn head(self, skipped: bool) -> Signal
        ensures { result ≡ chosen skipped self }
    {
        match (self, skipped) {
            (Choice::Ahead(0), _) => Signal::True,
            (Choice::Undecided, false) => Signal::None,
            _ => Signal::False,
        }
    }

    // The choice at the next branch, where this one ends with `last`.
    fn turned(self, last: Signal) -> Choice
        ensures { result ≡ turned self last }
    {
        match self {
            Choice::Ahead(0) => Choice::Behind(last),
            Choice::Ahead(bars) => Choice::Ahead(bars - 1),
            Choice::Undecided | Choice::Behind(_) => self,
        }
    }

    // The signal after the block's join, where the last branch ends with `last`.
    fn joined(self, skipped: bool, last: Signal) -> Signal
        ensures { result ≡ xor_joined skipped self last }
    {
        if skipped {
            return Signal::False;
        }
        match self.turned(last) {
            Choice::Behind(ended) => ended,
            _ => Signal::None,
        }
    }
}

// What an element does behind `signal`, within the innermost open block. A bar or a join does nothing where no block of
// its kind is open. Inlined, since a marking asks it for each element: called, it costs more than all that it does.
#[inline(always)]
pub(crate) fn moves(
    facts: &Facts,
    element: Element,
    signal: Signal,
    top: Option<Opened>,
) -> Move<Signal, Opened>
    ensures { result ≡ moves facts.now element signal top }
{
    match (element, top) {
        (Element::Activity(id) | Element::LoopEnd(id), _) => {
            Move::Stay(after(signal, is_done(facts.of(id))))
        }
        (Element::AndSplit, _) => Move::Open(signal, Opened::And(signal, true)),
        (Element::XorSplit(id), _) => {
            let skipped = signal == Signal::False;
            let choice = Choice::from(facts.of(id));
            Move::Open(choice.head(skipped), Opened::Xor(skipped, choice))
        }
        (Element::Bar, Some(Opened::And(before, all))) => {
            let all = all & (signal == Signal::True);
            Move::Turn(before, Opened::And(before, all))
        }
        (Element::Bar, Some(Opened::Xor(skipped, choice))) => {
            let next = choice.turned(signal);
            Move::Turn(next.head(skipped), Opened::Xor(skipped, next))
        }
        (Element::AndJoin, Some(Opened::And(before, all))) => {
            Move::Close(after(before, all & (signal == Signal::True)))
        }
        (Element::XorJoin, Some(Opened::Xor(skipped, choice))) => {
            Move::Close(choice.joined(skipped, signal))
        }
        _ => Move::Stay(signal),
    }
}

// The signals of the gaps of the row, whose nodes have these facts; nothing is told behind them.
#[tactic(auto, using(crate::proofs::GapSteps::gap_more, crate::proofs::GapSteps::gap_last))]
pub(crate) fn mark(row: &[Element], facts: &Facts) -> [Signal; 129]
    requires { length row.now ≤ 128 }
    ensures gaps { take (length row.now + 1) result ≡ signals facts.now start row.now }
    ensures long { length result ≡ 129 }
{
    let mut gaps = [Signal::None; 129];
    let mut signal = Signal::True;
    let mut blocks = Stack::new(Opened::And(Signal::None, false));
    for (i, element) in row.iter().enumerate() {
        // by index: after an adapter of `iter_mut` nothing is known of what was written
        gaps[i] = signal;
        let next = moves(facts, *element, signal, blocks.top());
        signal = blocks.follow(next);
    }
    gaps[row.len()] = signal;
    gaps
}
