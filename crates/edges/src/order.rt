// How the nodes of a row stand to one another.
ghost use Rattle.std.specs.Prelude.{◌≡◌, length};

use crate::bad_edge::BadEdge;
use crate::places::{Opened, Spot};
use crate::{grow, set_of, within};
use bounded::put;
use ids::IdSet;
use model::{Edge, Element, Row};
use stack::Stack;

// For each id the nodes that precede it, and the earlier activities that a sync edge may join it with. Arrays, since
// a schema takes no memory but that for its row and edges; two of them, since the two are asked apart.
// No model: `OrderOf` tells its fields one by one.
#[derive(Clone, Copy)]
pub struct Order {
    before: [IdSet; 64],
    partners: [IdSet; 64],
    ghost before_long: { length before ≡ 64 },
    ghost partners_long: { length partners ≡ 64 },
}

impl Order {
    ghost use Rattle.std.specs.Prelude.{List, slice_set};
    ghost use Rattle.model.specs.declared.Element.{Element};
    ghost use Rattle.edges.specs.Edges.{within, joined, proper, connected};
    ghost use Rattle.edges.specs.Places.{OrderOf, note, preceding, joinable};
    ghost use Rattle.edges.specs.Verdicts.{edges_checked, Tells, Leaves, edge_admitted, Judges, Ordered};

    // The order of a row's nodes.
    pub fn of(row: &Row) -> Order
        ensures { OrderOf row.now result }
    {
        let mut order = Order {
            before: [IdSet::empty(); 64],
            partners: [IdSet::empty(); 64],
        };
        let mut spot = Spot::nowhere();
        let mut blocks = Stack::new(Opened::at(spot, false));
        for element in row.as_slice() {
            order.note(*element, spot);
            let next = spot.moves(*element, blocks.top());
            spot = blocks.follow(next);
        }
        order
    }

    // Notes for a node those that precede it and those that a sync edge may join it with.
    fn note(&mut self, element: Element, spot: Spot)
        ensures before { self.new.before ≡ note preceding element spot self.old.before }
        ensures partners { self.new.partners ≡ note joinable element spot self.old.partners }
    {
        match element {
            Element::Activity(id) => self.put(id, spot.preceding(), spot.joinable()),
            Element::XorSplit(id) | Element::LoopEnd(id) => {
                self.put(id, spot.preceding(), IdSet::empty());
            }
            _ => {}
        }
    }

    fn put(&mut self, id: u8, before: IdSet, partners: IdSet)
        ensures before { self.new.before ≡ slice_set self.old.before id before }
        ensures partners { self.new.partners ≡ slice_set self.old.partners id partners }
    {
        put(&mut self.before, usize::from(id), before);
        put(&mut self.partners, usize::from(id), partners);
    }

    // Whether the first node precedes the second.
    pub fn precedes(&self, first: u8, second: u8) -> bool
        ensures value { result ≡ within self.now.before first second }
        ensures tree { (xs : List Element) → OrderOf xs self.now → Ordered xs first second result }
    {
        within(&self.before, first, second)
    }

    // Notes an edge: its target, and all that is reached from there, is reached from its source, and
    // from all that reaches that.
    fn connect(&mut self, edge: Edge)
        ensures before { self.new.before ≡ connected self.old.before edge }
        ensures partners { self.new.partners ≡ self.old.partners }
    {
        let gain = set_of(&self.before, edge.source).with(Some(edge.source));
        let all = set_of(&self.before, edge.target).union(gain);
        put(&mut self.before, usize::from(edge.target), all);
        grow(&mut self.before, edge.target, gain);
    }

    // Whether a sync edge may join these two nodes: either may be the later one in the row.
    fn joins(&self, edge: Edge) -> bool
        ensures { result ≡ joined self.now.partners edge }
    {
        within(&self.partners, edge.source, edge.target)
            || within(&self.partners, edge.target, edge.source)
    }

    // Whether an edge may come after these, which have been noted.
    fn takes(&self, earlier: &[Edge], edge: Edge) -> bool
        ensures { result ≡ proper self.now.partners self.now.before earlier.now edge }
    {
        self.joins(edge)
            && !earlier.contains(&edge)
            && !within(&self.before, edge.target, edge.source)
    }

    // Whether each sync edge joins two activities of different branches of one AND block and of the same
    // innermost loop or none, is not listed before, and closes no cycle of precedence and earlier edges;
    // else the first that fails.
    pub fn check(&self, edges: &[Edge]) -> Result<(), BadEdge>
        ensures value { result ≡ edges_checked self.now edges.now }
        ensures tree { (xs : List Element) → OrderOf xs self.now → Tells xs edges.now result }
        ensures free { (xs : List Element) → OrderOf xs self.now → Leaves xs edges.now result }
    {
        let mut order = *self;
        for (place, edge) in edges.iter().enumerate() {
            if !order.takes(&edges[..place], *edge) {
                return Err(BadEdge {
                    place,
                    source: edge.source,
                });
            }
            order.connect(*edge);
        }
        Ok(())
    }

    // Whether the edge may come after these, by the same rules.
    pub fn admits(&self, edges: &[Edge], edge: Edge) -> bool
        ensures value { result ≡ edge_admitted self.now edges.now edge }
        ensures tree { (xs : List Element) → OrderOf xs self.now → Judges xs edges.now edge result }
    {
        let mut order = *self;
        for earlier in edges {
            order.connect(*earlier);
        }
        order.takes(edges, edge)
    }
}
