// The signal of one gap, from what stands around it, and not from a pass over the whole row.
ghost use Rattle.std.specs.Prelude.{◌≡◌, ◌<◌, ◌≤◌, cond, length, slice_index_or, IfSome};
ghost use Rattle.model.specs.declared.Element.TheVariants.{AndSplit};
ghost use Rattle.model.specs.declared.Signal.TheVariants.{True, False, None};
ghost use Rattle.model.specs.Signals.{fact_of, is_done, decided, head_of};
ghost use Rattle.layout.specs.Gaps.{gap_of};
ghost use Rattle.schema.specs.Schemas.{parts};
ghost use Rattle.marking.specs.Nearby.{signal_in, dead, before, telling, alone};

use crate::dead::{decision, is_dead};
use crate::signals::{Opened, is_done, moves};
use bounded::get_or;
use facts::Facts;
use layout::Position;
use model::{Element, Fact, Signal};
use schema::schema::Schema;
use stack::Stack;

// This signal, but false where the place is dead.
fn unless_dead(schema: &Schema, facts: &Facts, place: usize, signal: Signal) -> Signal
    requires { place < length (parts schema.now).row }
    ensures { result ≡ cond (dead (parts schema.now).row facts.now place) False signal }
{
    if is_dead(schema, facts, place) {
        Signal::False
    } else {
        signal
    }
}

// The signal at the head of this branch of the XOR block that begins at `split`.
fn head(schema: &Schema, facts: &Facts, split: usize, id: u8, branch: u8) -> Signal
    requires { split < length (parts schema.now).row }
    ensures { result ≡ head_of (dead (parts schema.now).row facts.now split) (decided (fact_of facts.now id)) branch }
{
    match facts.of(id) {
        Fact::Decided(decided) if decided == branch => Signal::True,
        Fact::Decided(_) => Signal::False,
        _ => unless_dead(schema, facts, split, Signal::None),
    }
}

// The signal behind a block, from that before it.
fn behind(facts: &Facts, block: &[Element], before: Signal) -> Signal
    requires { length block.now ≤ 128 }
    ensures { result ≡ alone facts.now block.now before }
{
    let mut signal = before;
    let mut blocks = Stack::new(Opened::And(Signal::None, false));
    for element in block {
        let next = moves(facts, *element, signal, blocks.top());
        signal = blocks.follow(next);
    }
    signal
}

// The signal behind a block, if it is the same where none and where true is before it.
fn sure_signal(facts: &Facts, block: &[Element]) -> Option<Signal>
    requires { length block.now ≤ 128 }
    ensures { IfSome result (λ signal. (alone facts.now block.now None ≡ signal) × (alone facts.now block.now True ≡ signal)) }
{
    let signal = behind(facts, block, Signal::None);
    if signal == behind(facts, block, Signal::True) {
        Some(signal)
    } else {
        None
    }
}

// What stands before a gap.
#[derive(Clone, Copy)]
enum Before {
    Node(u8),
    // the head of a branch, in the block that begins at `split`
    Head { split: usize, branch: u8 },
    // a whole AND or XOR block, which begins at `split`
    Block { split: usize },
    // a bar or a join outside every block; no schema has one
    Astray,
}

impl Before {
    // What stands before the gap behind this element.
    fn of(element: Element, place: usize, position: Position) -> Before
        ensures { result ≡ before element place position }
    {
        match (element, position.block) {
            (Element::Activity(id) | Element::LoopEnd(id), _) => Before::Node(id),
            (Element::AndSplit | Element::XorSplit(_) | Element::LoopStart, _) => Before::Head {
                split: place,
                branch: 0,
            },
            (Element::Bar, Some(start)) => Before::Head {
                split: usize::from(start),
                branch: position.branch,
            },
            (Element::AndJoin | Element::XorJoin, Some(start)) => Before::Block {
                split: usize::from(start),
            },
            (Element::Bar | Element::AndJoin | Element::XorJoin, None) => Before::Astray,
        }
    }
}

// The signal behind the node at this place.
fn behind_node(schema: &Schema, facts: &Facts, place: usize, id: u8) -> Signal
    requires { place < length (parts schema.now).row }
    ensures { result ≡ cond (dead (parts schema.now).row facts.now place) False (cond (is_done (fact_of facts.now id)) True None) }
{
    let signal = if is_done(facts.of(id)) {
        Signal::True
    } else {
        Signal::None
    };
    unless_dead(schema, facts, place, signal)
}

// The signal of a gap; past the row's end there is none. It is found by going back from the gap only as far as it hangs
// on what stands there.
#[tactic(auto, using(crate::proofs::OneGap::at_start, crate::proofs::Behind::node_signal, crate::proofs::Behind::head_before, crate::proofs::Behind::decided_head, crate::proofs::Behind::plain_head, crate::proofs::Behind::block_before, crate::proofs::Behind::behind_block, crate::proofs::Behind::steady_block, crate::proofs::Behind::none_astray, crate::proofs::Behind::past_signal, schema::proofs::Checked::checked_nested))]
pub fn signal_at(schema: &Schema, facts: &Facts, gap: usize) -> Signal
    ensures { result ≡ signal_in (parts schema.now).row facts.now gap }
{
    if gap == 0 {
        return Signal::True;
    }
    let place = gap - 1;
    let Some(position) = schema.position(place) else {
        return Signal::None;
    };
    let row = schema.row();
    match Before::of(get_or(row, place, Element::AndSplit), place, position) {
        Before::Node(id) => behind_node(schema, facts, place, id),
        Before::Head { split, branch } => match decision(schema, split) {
            Some(id) => head(schema, facts, split, id, branch),
            None => signal_at(schema, facts, split),
        },
        Before::Block { split } => {
            let block = &row[split..gap];
            match sure_signal(facts, block) {
                Some(signal) => unless_dead(schema, facts, split, signal),
                None => behind(facts, block, signal_at(schema, facts, split)),
            }
        }
        Before::Astray => Signal::None,
    }
}

// The own signal of a node with this fact, as far as its state hangs on it: where something happened to the node, only
// whether it is false.
pub(crate) fn telling_signal(schema: &Schema, facts: &Facts, place: usize, fact: Fact) -> Signal
    requires inside { place < length (parts schema.now).row }
    requires before { gap_of (slice_index_or (parts schema.now).row place AndSplit) place ≡ place }
    ensures { result ≡ telling (signal_in (parts schema.now).row facts.now place) fact }
{
    match fact {
        Fact::Nothing => signal_at(schema, facts, place),
        _ => unless_dead(schema, facts, place, Signal::None),
    }
}
