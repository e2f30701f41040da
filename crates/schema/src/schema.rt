// A schema that passed the checks.
ghost use Rattle.std.specs.Prelude.{◌≡◌, ◌≤◌, true, length, drop, Decides};
ghost use Rattle.model.specs.Trees.{Seq, flatten};
ghost use Rattle.model.specs.Rows.{Precedes};
ghost use Rattle.edges.specs.Edges.{within};
ghost use Rattle.edges.specs.Places.{befores, OrderOf};
ghost use Rattle.edges.specs.Verdicts.{edge_verdict, Judges};
ghost use Rattle.layout.specs.Gaps.{Positioned, Ended};
ghost use Rattle.layout.specs.Nodes.{Finds};
ghost use Rattle.layout.specs.Pass.{LayoutOf};
ghost use Rattle.followers.specs.Followers.{FollowersAt};
ghost use Rattle.followers.specs.Backwards.{followers};
ghost use Rattle.followers.specs.Tables.{FollowersOf};
ghost use Rattle.schema.specs.Checks.{passes};
ghost use Rattle.schema.specs.Tables.{place_in, position_in, end_in};

mod checks;

use edges::order::Order;
use followers::FollowerTable;
use ids::IdSet;
use layout::{Layout, Position};
use model::{Edge, EdgeList, Element, Row};

// Its row and edges passed the checks, and what is asked of them again and again is computed once. No `impl Model`: proofs
// in the crates above read from a schema that is lent to them that it passed, and a model would hide this ghost field.
#[derive(Drop)]
pub struct Schema {
    row: Row,
    edges: EdgeList,
    order: Order,
    layout: Layout,
    followers: FollowerTable,
    version: u16,
    ghost passed: { passes row edges ≡ true },
    ghost few_edges: { length edges ≤ 32 },
    ghost ordered: { ∥ OrderOf row order ∥₁ },
    ghost laid: { ∥ LayoutOf row layout ∥₁ },
    ghost followed: { ∥ FollowersOf row followers ∥₁ },
}

impl Schema {
    ghost use Rattle.schema.specs.Schemas.{parts};

    pub fn version(&self) -> u16
        ensures { result ≡ (parts self.now).version }
    {
        self.version
    }

    pub fn row(&self) -> &[Element]
        ensures value { result.now ≡ (parts self.now).row }
        ensures few { length result.now ≤ 128 }
    {
        self.row.as_slice()
    }

    // In the order in which they were listed.
    pub fn edges(&self) -> &[Edge]
        ensures { result.now ≡ (parts self.now).edges }
    {
        self.edges.as_slice()
    }

    // Whether the first node precedes the second.
    pub fn precedes(&self, first: u8, second: u8) -> bool
        ensures value { result ≡ within (befores (parts self.now).row) first second }
        ensures tree { (t : Seq) → (parts self.now).row ≡ flatten t → Decides result (Precedes t first second) }
    {
        self.order.precedes(first, second)
    }

    // Whether the edge may come after those that are listed.
    pub fn admits(&self, edge: Edge) -> bool
        ensures value { result ≡ edge_verdict (parts self.now).row (parts self.now).edges edge }
        ensures tree { Judges (parts self.now).row (parts self.now).edges edge result }
    {
        self.order.admits(self.edges.as_slice(), edge)
    }

    // The place of the node with this id; its element tells the kind.
    pub fn place(&self, id: u8) -> Option<usize>
        ensures value { result ≡ place_in (parts self.now).row id }
        ensures node { Finds (parts self.now).row id result }
    {
        self.layout.place(id)
    }

    // The block, the branch and the loop around the element at this place; `None` from the row's end on.
    pub fn position(&self, place: usize) -> Option<Position>
        ensures value { result ≡ position_in (parts self.now).row place }
        ensures tree { Positioned (parts self.now).row place result }
    {
        self.layout.position(place)
    }

    // The place that closes the block that begins at `start`.
    pub fn end(&self, start: usize) -> Option<usize>
        ensures value { result ≡ end_in (parts self.now).row start }
        ensures tree { Ended (parts self.now).row start result }
    {
        self.layout.end(start)
    }

    // The nodes that come next at this gap; none from the row's end on.
    #[tactic(auto, using(crate::proofs::Checked::followed, crate::proofs::Checked::laid_few))]
    pub fn followers(&self, gap: usize) -> IdSet
        ensures value { result ≡ followers (drop gap (parts self.now).row) }
        ensures tree { (t : Seq) → (parts self.now).row ≡ flatten t → FollowersAt t gap result }
    {
        self.followers.at(gap)
    }
}
