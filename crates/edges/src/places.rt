// What stands ahead of a gap of a row and beside it, and how an element changes that.
ghost use Rattle.std.specs.Prelude.{◌≡◌, true};
ghost use Rattle.ids.specs.Sets.{empty, union};
ghost use Rattle.edges.specs.Places.{past_node, past_activity, enter, enter_loop, turn, leave, leave_loop, moves, nowhere, opened, joinable};

use ids::IdSet;
use model::Element;
use stack::Move;

// A gap of a row. The sets are of nodes.
#[derive(Clone, Copy)]
pub struct Spot {
    // that precede the innermost open branch
    pub ahead: IdSet,
    // of that branch, so far
    pub seen: IdSet,
    // in earlier branches of open AND blocks
    pub beside: IdSet,
    // activities with the same innermost loop
    pub mates: IdSet,
}

#[derive(Clone, Copy)]
pub struct Opened {
    // the gap before its branches
    pub origin: Spot,
    // the nodes of its branches so far
    pub gathered: IdSet,
    // whether it is an AND block: asked once, in `turn`, where an enum of two kinds would be matched as the flag is
    pub parallel: bool,
}

impl Spot {
    // before the row; named, since a default would not say so
    pub(crate) fn nowhere() -> Spot
        ensures { result ≡ nowhere }
    {
        Spot {
            ahead: IdSet::empty(),
            seen: IdSet::empty(),
            beside: IdSet::empty(),
            mates: IdSet::empty(),
        }
    }

    // The nodes that precede one that stands here.
    pub(crate) fn preceding(self) -> IdSet
        ensures { result ≡ union self.ahead self.seen }
    {
        self.ahead.union(self.seen)
    }

    // The earlier activities that a sync edge may join an activity with.
    pub(crate) fn joinable(self) -> IdSet
        ensures { result ≡ joinable true self }
    {
        self.beside.intersection(self.mates)
    }

    // past a decision or a test
    fn past_node(self, id: u8) -> Spot
        ensures { result ≡ past_node id self }
    {
        Spot {
            seen: self.seen.with(Some(id)),
            ..self
        }
    }

    fn past_activity(self, id: u8) -> Spot
        ensures { result ≡ past_activity id self }
    {
        Spot {
            mates: self.mates.with(Some(id)),
            ..self.past_node(id)
        }
    }

    // at the head of a block's first branch
    fn enter(self) -> Spot
        ensures { result ≡ enter self }
    {
        Spot {
            ahead: self.ahead.union(self.seen),
            seen: IdSet::empty(),
            ..self
        }
    }

    fn enter_loop(self) -> Spot
        ensures { result ≡ enter_loop self }
    {
        Spot {
            mates: IdSet::empty(),
            ..self
        }
    }

    // at the head of the next branch: that of an AND block stands beside the one before
    fn turn(self, parallel: bool) -> Spot
        ensures { result ≡ turn parallel self }
    {
        Spot {
            seen: IdSet::empty(),
            beside: if parallel {
                self.beside.union(self.seen)
            } else {
                self.beside
            },
            ..self
        }
    }

    // after the join of a block that began at `origin` and gathered these nodes in earlier branches
    fn leave(self, origin: Spot, gathered: IdSet) -> Spot
        ensures { result ≡ leave origin gathered self }
    {
        Spot {
            seen: origin.seen.union(gathered.union(self.seen)),
            mates: self.mates,
            ..origin
        }
    }

    fn leave_loop(self, origin: Spot, id: u8) -> Spot
        ensures { result ≡ leave_loop id origin self }
    {
        Spot {
            mates: origin.mates,
            ..self.past_node(id)
        }
    }

    // What an element that stands here does, within the innermost open block.
    pub(crate) fn moves(self, element: Element, top: Option<Opened>) -> Move<Spot, Opened>
        ensures { result ≡ moves element self top }
    {
        match (element, top) {
            (Element::Activity(id), _) => Move::Stay(self.past_activity(id)),
            (Element::AndSplit, _) => Move::Open(self.enter(), Opened::at(self, true)),
            (Element::XorSplit(id), _) => {
                let decided = self.past_node(id);
                Move::Open(decided.enter(), Opened::at(decided, false))
            }
            (Element::LoopStart, _) => Move::Open(self.enter_loop(), Opened::at(self, false)),
            (Element::Bar, Some(block)) => Move::Turn(
                self.turn(block.parallel),
                Opened {
                    gathered: block.gathered.union(self.seen),
                    ..block
                },
            ),
            (Element::AndJoin | Element::XorJoin, Some(block)) => Move::Close(self.leave(
                block.origin,
                block.gathered,
            )),
            (Element::LoopEnd(id), Some(block)) => Move::Close(self.leave_loop(block.origin, id)),
            _ => Move::Stay(self),
        }
    }
}

impl Opened {
    // A block that begins at `origin`.
    pub(crate) fn at(origin: Spot, parallel: bool) -> Opened
        ensures { result ≡ opened origin empty parallel }
    {
        Opened {
            origin,
            gathered: IdSet::empty(),
            parallel,
        }
    }
}
