// Whether the blocks of a row nest, and where they first do not.
#![tactic(auto)]

ghost use Rattle.std.specs.Prelude.{◌≡◌, ℕ, ◌+◌, ◌<◌, ◌≤◌, List, [], length};
ghost use Rattle.model.specs.Trees.{Tells};
ghost use Rattle.blocks.specs.Blocks.{fault, verdict, starts, meets, Sequence, Item};

pub mod bad_block;

use bad_block::BadBlock;
use model::Element;

// An open block. The number is that of its bars so far.
#[derive(Clone, Copy)]
pub enum Frame {
    And(u8),
    Xor(u8),
    Loop,
}

// The item that an element starts. An `Option<Frame>` in the `Option` that `starts` answers would be no plainer.
#[derive(Clone, Copy)]
pub enum Start {
    Activity,
    Block(Frame),
}

// What an element that starts no item does to the innermost open block. Not an `Option<Frame>`, for the same reason.
#[derive(Clone, Copy)]
pub enum Next {
    Branch(Frame),
    Closed,
}

// `None` for an element that starts no item.
fn starts(element: Element) -> Option<Start>
    ensures { result ≡ starts element }
{
    match element {
        Element::Activity(_) => Some(Start::Activity),
        Element::AndSplit => Some(Start::Block(Frame::And(0))),
        Element::XorSplit(_) => Some(Start::Block(Frame::Xor(0))),
        Element::LoopStart => Some(Start::Block(Frame::Loop)),
        Element::Bar | Element::AndJoin | Element::XorJoin | Element::LoopEnd(_) => None,
    }
}

impl Frame {
    // `None` for an element that this block refuses.
    fn meets(self, element: Element) -> Option<Next>
        ensures { result ≡ meets self element }
    {
        match (self, element) {
            (Self::And(bars), Element::Bar) if bars < 7 => Some(Next::Branch(Self::And(bars + 1))),
            (Self::Xor(bars), Element::Bar) if bars < 7 => Some(Next::Branch(Self::Xor(bars + 1))),
            (Self::And(bars), Element::AndJoin) if bars > 0 => Some(Next::Closed),
            (Self::Xor(bars), Element::XorJoin) if bars > 0 => Some(Next::Closed),
            (Self::Loop, Element::LoopEnd(_)) => Some(Next::Closed),
            _ => None,
        }
    }
}

// Whether the row is well nested. A refusal has the place of the first element that is not of the innermost
// open block, closes a block of one branch or begins a ninth, or the row's length if a block stays open.
#[tactic(auto, using(crate::proofs::FirstFaults::refused_outside, crate::proofs::FirstFaults::told))]
pub fn check_blocks(row: &[Element]) -> Result<(), BadBlock>
    ensures place { result ≡ verdict (fault [] 0 row.now) }
    ensures tree { Tells row.now result }
{
    let end = sequence(row, 0)?;
    if end < row.len() {
        Err(BadBlock { place: end })
    } else {
        Ok(())
    }
}

// Reads the items from `at` on, and answers the place after the last. By place, since a fault's is told.
#[cycle(item_sequence)]
fn sequence(row: &[Element], at: usize) -> Result<usize, BadBlock>
    requires { at ≤ length row.now }
    ensures { Sequence row.now at result }
{
    let mut end = at;
    while let Some(next) = item(row, end)? {
        end = next;
    }
    Ok(end)
}

// Reads the item that starts at `at`, and answers the place after it, or `None` where none starts.
#[cycle(item_sequence)]
fn item(row: &[Element], at: usize) -> Result<Option<usize>, BadBlock>
    requires { at ≤ length row.now }
    ensures { Item row.now at result }
{
    let mut frame = match row.get(at).copied().and_then(starts) {
        None => return Ok(None),
        Some(Start::Activity) => return Ok(Some(at + 1)),
        Some(Start::Block(frame)) => frame,
    };
    let mut end = sequence(row, at + 1)?;
    while let Some(element) = row.get(end) {
        match frame.meets(*element).ok_or(BadBlock { place: end })? {
            Next::Branch(next) => frame = next,
            Next::Closed => return Ok(Some(end + 1)),
        }
        end = sequence(row, end + 1)?;
    }
    Err(BadBlock { place: end })
}
