// Where the elements of a row stand: the places of its nodes, the block around each element, and where
// blocks end. Computed once, in one pass, and with no memory taken.
#![tactic(auto)]

ghost use Rattle.std.specs.Prelude.{◌≡◌, ◌≤◌, length};

mod tables;
#[cfg(test)]
mod tests;

use bounded::put;
use model::{Element, Row};
use stack::{Move, Stack};
use tables::{lookup, write};

// Where an element stands: the innermost block around it.
#[derive(Clone, Copy, PartialEq, Eq, Debug)]
pub struct Position {
    // the place where that block begins, if there is one
    pub block: Option<u8>,
    // the place where the innermost loop around it begins
    pub loop_start: Option<u8>,
    // the branch of that block, from 0
    pub branch: u8,
    // how many blocks are around it
    pub depth: u8,
}

impl Position {
    ghost use Rattle.std.specs.Prelude.{◌<◌};
    ghost use Rattle.layout.specs.Pass.{outside, moves, stand, ending};

    // outside every block; named, since a default would not say so
    fn outside() -> Position
        ensures { result ≡ outside }
    {
        Position {
            block: None,
            loop_start: None,
            branch: 0,
            depth: 0,
        }
    }

    // What the element at `place` does here, where `outer` is the position around the innermost block: that is
    // kept of an open block. A bar or an end outside every block does nothing.
    fn moves(self, element: Element, place: u8, outer: Option<Position>) -> Move<Position, Position>
        requires { (self.branch < 128) × (self.depth < 128) }
        ensures { result ≡ moves element place self outer }
    {
        // at the head of the first branch of a block that begins here
        let inner = Position {
            block: Some(place),
            branch: 0,
            depth: self.depth + 1,
            ..self
        };
        match (element, outer) {
            (Element::AndSplit | Element::XorSplit(_), _) => Move::Open(inner, self),
            (Element::LoopStart, _) => {
                let in_loop = Position {
                    loop_start: Some(place),
                    ..inner
                };
                Move::Open(in_loop, self)
            }
            (Element::Bar, Some(around)) => {
                let next_branch = Position {
                    branch: self.branch + 1,
                    ..self
                };
                Move::Turn(next_branch, around)
            }
            (Element::AndJoin | Element::XorJoin | Element::LoopEnd(_), Some(around)) => {
                Move::Close(around)
            }
            _ => Move::Stay(self),
        }
    }

    // Where an element stands that makes this move from here: a bar at the head of the branch that it begins.
    fn stand(self, next: Move<Position, Position>) -> Position
        ensures { result ≡ stand next self }
    {
        match next {
            Move::Turn(after, _) => after,
            _ => self,
        }
    }

    // The block that ends with this move from here.
    fn ending(self, next: Move<Position, Position>) -> Option<u8>
        ensures { result ≡ ending next self }
    {
        match next {
            Move::Close(_) => self.block,
            _ => None,
        }
    }
}

// Arrays beside a length, and not an `ArrayVec` of positions: what is told of a layout (`LayoutOf`) tells all 128 of
// them, those past the row too. Positions and ends stand apart, since they are asked apart. No model, since `LayoutOf` tells
// the fields one by one.
#[derive(Clone, Copy)]
pub struct Layout {
    // how many elements the row has
    len: usize,
    // by id: the place of its node
    places: [Option<u8>; 64],
    // by place
    positions: [Position; 128],
    // by the place where a block begins: the place that closes it
    ends: [Option<u8>; 128],
    ghost few: { len ≤ 128 },
    ghost places_long: { length places ≡ 64 },
    ghost positions_long: { length positions ≡ 128 },
    ghost ends_long: { length ends ≡ 128 },
}

impl Layout {
    ghost use Rattle.std.specs.Prelude.{List, None, slice_index_or};
    ghost use Rattle.model.specs.declared.Element.{Element};
    ghost use Rattle.layout.specs.Pass.{LayoutOf, noted, tables, position_at};
    ghost use Rattle.layout.specs.Nodes.{Finds};
    ghost use Rattle.layout.specs.Gaps.{Positioned, Ended, OfTree};

    // The layout of a row. One that is not well nested has a layout too, but it says little.
    pub fn of(row: &Row) -> Layout
        ensures { LayoutOf row.now result }
    {
        let elements = row.as_slice();
        let mut here = Position::outside();
        let mut outer = Stack::new(here);
        let mut layout = Layout {
            len: elements.len(),
            places: [None; 64],
            positions: [here; 128],
            ends: [None; 128],
        };
        for (i, element) in elements.iter().enumerate() {
            // below 128, as the check proves: a cast, since `u8::try_from` would answer an error that can't come
            let place = i as u8;
            let next = here.moves(*element, place, outer.top());
            layout.note(*element, place, next, here);
            here = outer.follow(next);
        }
        layout
    }

    // Notes an element at `place` that makes this move.
    fn note(&mut self, element: Element, place: u8, next: Move<Position, Position>, here: Position)
        ensures len { self.new.len ≡ self.old.len }
        ensures tables { tables self.new.places self.new.positions self.new.ends
            ≡ noted element place next here (tables self.old.places self.old.positions self.old.ends) }
    {
        write(&mut self.places, element.id(), place);
        write(&mut self.ends, here.ending(next), place);
        put(&mut self.positions, usize::from(place), here.stand(next));
    }

    // The place of the node with this id.
    #[tactic(auto, using(crate::proofs::Finds::place_finds))]
    pub fn place(&self, id: u8) -> Option<usize>
        ensures value { result ≡ slice_index_or self.now.places id None }
        ensures node { (xs : List Element) → LayoutOf xs self.now → Finds xs id result }
    {
        lookup(&self.places, usize::from(id))
    }

    // Where the element at this place stands; a bar stands at the head of the branch that it begins.
    // `None` from the row's end on.
    pub fn position(&self, place: usize) -> Option<Position>
        ensures value { result ≡ position_at self.now place }
        ensures tree { (xs : List Element) → LayoutOf xs self.now → OfTree xs (Positioned xs place result) }
    {
        self.positions[..self.len].get(place).copied()
    }

    // The place that closes the block that begins at `start`.
    #[tactic(auto, using(crate::proofs::Laid::end_ends))]
    pub fn end(&self, start: usize) -> Option<usize>
        ensures value { result ≡ slice_index_or self.now.ends start None }
        ensures tree { (xs : List Element) → LayoutOf xs self.now → OfTree xs (Ended xs start result) }
    {
        lookup(&self.ends, start)
    }
}
