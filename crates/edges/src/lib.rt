// How the nodes of a row stand to one another, and the rules for sync edges.
#![tactic(auto)]

ghost use Rattle.std.specs.Prelude.{◌≡◌, ℕ, map, slice_index_or};
ghost use Rattle.ids.specs.Sets.{empty};
ghost use Rattle.edges.specs.Edges.{grown, within};

pub mod bad_edge;
pub mod order;
pub mod places;

use bounded::get_or;
use ids::IdSet;

fn set_of(sets: &[IdSet], id: u8) -> IdSet
    ensures { result ≡ slice_index_or sets.now id empty }
{
    get_or(sets, usize::from(id), IdSet::empty())
}

// Whether an id is in the set that belongs to another.
pub(crate) fn within(sets: &[IdSet], id: u8, of: u8) -> bool
    ensures { result ≡ within sets.now id of }
{
    set_of(sets, of).has(id)
}

fn grown(set: IdSet, id: u8, gain: IdSet) -> IdSet
    ensures { result ≡ grown id gain set }
{
    if set.has(id) { set.union(gain) } else { set }
}

// Adds `gain` to each set that has the id.
fn grow(sets: &mut [IdSet], id: u8, gain: IdSet)
    ensures { sets.new ≡ map (grown id gain) sets.old }
{
    for set in sets.iter_mut() {
        *set = grown(*set, id, gain);
    }
}
