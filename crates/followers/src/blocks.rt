// What an element does to the followers of the gap behind it.
ghost use Rattle.std.specs.Prelude.{◌≡◌};
ghost use Rattle.ids.specs.Sets.{empty};
ghost use Rattle.followers.specs.Backwards.{block, moves};

use ids::IdSet;
use model::Element;
use stack::Move;

// An AND or XOR block around a gap.
#[derive(Clone, Copy)]
pub struct Block {
    // the followers of the gap behind its join
    pub after: IdSet,
    // those of the first gaps of the branches after the one that the gap is in
    pub heads: IdSet,
}

impl Block {
    // Around the end of its last branch.
    pub(crate) fn ending(after: IdSet) -> Block
        ensures { result ≡ block after empty }
    {
        Block {
            after,
            heads: IdSet::empty(),
        }
    }
}

// The followers of the gap before an element, from those of the gap behind it, within the innermost block there. Read from
// the row's end, a join opens a block and a split closes it. A bar or an AND split does nothing where no block is open.
pub(crate) fn moves(element: Element, behind: IdSet, top: Option<Block>) -> Move<IdSet, Block>
    ensures { result ≡ moves element behind top }
{
    match (element, top) {
        (Element::Activity(id) | Element::LoopEnd(id), _) => Move::Stay(IdSet::only(id)),
        (Element::AndJoin | Element::XorJoin, _) => Move::Open(behind, Block::ending(behind)),
        (Element::Bar, Some(block)) => {
            let heads = behind.union(block.heads);
            Move::Turn(block.after, Block { heads, ..block })
        }
        (Element::AndSplit, Some(block)) => Move::Close(behind.union(block.heads)),
        (Element::XorSplit(id), _) => Move::Close(IdSet::only(id)),
        _ => Move::Stay(behind),
    }
}
