// A worklist with one mark an id.
ghost use Rattle.std.specs.Prelude.{◌≡◌, ℕ, ◌≤◌, false};
ghost use Rattle.ids.specs.Sets.{has};
ghost use Rattle.worklist.specs.Offers.{none_offered};

use crate::Worklist;
use ids::IdSet;

// No model: the law `bounded` of a worklist is of all its values, and a model's value would not carry the field that shows it.
#[derive(Drop)]
pub struct Board {
    marks: IdSet,
    ghost bounded: { (id : ℕ) → 64 ≤ id → has marks id ≡ false },
}

impl Board {
    ghost use Rattle.worklist.specs.Boards.{marked};

    // A board with no mark.
    pub fn new() -> Board
        ensures { marked result ≡ none_offered }
    {
        Board {
            marks: IdSet::empty(),
        }
    }
}

impl Worklist for Board {
    ghost use Rattle.worklist.specs.Boards.{marked};

    ghost offered = { marked };

    ghost bounded = { λ b. b.bounded };

    ghost offering = { λ _ _ _. Unit {0} };

    ghost withdrawing = { λ _ _ _. Unit {0} };

    fn clear(&mut self) {
        self.marks = IdSet::empty();
    }

    fn offer(&mut self, id: u8) {
        self.marks = self.marks.with(Some(id));
    }

    fn withdraw(&mut self, id: u8) {
        self.marks = self.marks.difference(IdSet::only(id));
    }

    fn has(&self, id: u8) -> bool {
        self.marks.has(id)
    }

    fn count(&self) -> usize {
        self.marks.len()
    }

    fn ids(&self) -> IdSet {
        self.marks
    }
}
