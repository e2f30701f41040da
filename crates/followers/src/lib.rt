// The followers of every gap of a row: the nodes that come next there. Computed once, in one pass, and with no memory taken.
#![tactic(auto)]

ghost use Rattle.std.specs.Prelude.{◌≡◌, ◌≤◌, length};

mod blocks;
#[cfg(test)]
mod tests;

use blocks::{Block, moves};
use bounded::{get_or, put};
use ids::IdSet;
use model::Row;
use stack::Stack;

// A set for each gap of a row, which has at most 128 elements. No model, since `FollowersOf` tells of the sets themselves.
#[derive(Clone, Copy)]
pub struct FollowerTable {
    // by gap; empty from the row's end on
    sets: [IdSet; 129],
    ghost long: { length sets ≡ 129 },
}

impl FollowerTable {
    ghost use Rattle.std.specs.Prelude.{List, drop};
    ghost use Rattle.model.specs.declared.Element.{Element};
    ghost use Rattle.model.specs.Trees.{Seq, flatten};
    ghost use Rattle.followers.specs.Followers.{FollowersAt};
    ghost use Rattle.followers.specs.Backwards.{followers};
    ghost use Rattle.followers.specs.Tables.{FollowersOf};

    // The table of a row, in one pass from its end: if each branch of a block asked anew what comes behind the block, each
    // block of empty branches would multiply the work. The stack has a place for each block.
    pub fn of(row: &Row) -> FollowerTable
        ensures { FollowersOf row.now result }
    {
        let mut here = IdSet::empty();
        let mut around = Stack::new(Block::ending(here));
        let mut sets = [here; 129];
        for (gap, element) in row.as_slice().iter().enumerate().rev() {
            let next = moves(*element, here, around.top());
            here = around.follow(next);
            put(&mut sets, gap, here);
        }
        FollowerTable { sets }
    }

    // The followers of a gap; none from the row's end on.
    #[tactic(auto, using(crate::proofs::TreeFollowers::followers_at))]
    pub fn at(&self, gap: usize) -> IdSet
        ensures value { (xs : List Element) → FollowersOf xs self.now → result ≡ followers (drop gap xs) }
        ensures tree { (xs : List Element) → FollowersOf xs self.now
            → (t : Seq) → length xs ≤ 128 → xs ≡ flatten t → FollowersAt t gap result }
    {
        get_or(&self.sets, gap, IdSet::empty())
    }
}
