// A list that grows in places that were handed to it.
#![tactic(auto)]

ghost use Rattle.std.specs.Prelude.{◌≡◌, ◌-◌, [], length, take};
ghost use Rattle.history.specs.Stores.{refusal};
ghost use Rattle.places.specs.AppendLists.{held, left, size, usage, pushed, push_answer};

mod compaction;
#[cfg(test)]
mod tests;

pub use compaction::compact;
use history::Full;

// The first `used` places of a row, or all of them if it has fewer. What the others hold means nothing.
// The row and its count stand side by side since the list grows in places that its owner lends, and takes no memory.
// No invariant holds `used` within the row: a struct that has one and holds a `&mut` can't be held by value in another.
// No model: a refused push says `self.new ≡ self.old`, and over a view that would say nothing of the places behind the list.
#[derive(Drop)]
pub struct AppendList<'a, T: Copy> {
    row: &'a mut [T],
    used: usize,
}

// Each call that changes the list says that its places stay as many (`places`): a caller sees no more of a call than it says.
impl<'a, T: Copy> AppendList<'a, T> {
    // An empty list in these places.
    pub fn over(row: &'a mut [T]) -> AppendList<'a, T>
        ensures items { held result ≡ [] }
        ensures room { left result ≡ length row.old }
        ensures places { size result ≡ length row.old }
    {
        AppendList { row, used: 0 }
    }

    // Puts an item at the end; a full list refuses and stays as it is.
    pub fn push(&mut self, item: T) -> Result<(), Full>
        ensures answer { result ≡ push_answer (left self.old) }
        ensures items { held self.new ≡ pushed item (left self.old) (held self.old) }
        ensures room { left self.new ≡ left self.old - 1 }
        ensures places { size self.new ≡ size self.old }
        ensures unchanged { result ≡ refusal → self.new ≡ self.old }
    {
        // tried with `get_mut`: after it a proof knows nothing of what the row holds
        if self.used < self.row.len() {
            self.row[self.used] = item;
            self.used += 1;
            Ok(())
        } else {
            Err(Full)
        }
    }

    pub fn clear(&mut self)
        ensures items { held self.new ≡ [] }
        ensures room { left self.new ≡ size self.old }
        ensures places { size self.new ≡ size self.old }
    {
        self.used = 0;
    }

    // Keeps the first `n` items.
    pub fn truncate(&mut self, n: usize)
        ensures items { held self.new ≡ take n (held self.old) }
        ensures room { left self.new ≡ size self.old - length (take n (held self.old)) }
        ensures places { size self.new ≡ size self.old }
    {
        self.used = self.used.min(n);
    }

    // How many places are used, and how many are left.
    pub fn usage(&self) -> (usize, usize)
        ensures { result ≡ usage self.now }
    {
        let used = self.items().len();
        (used, self.row.len() - used)
    }

    pub fn items(&self) -> &[T]
        ensures { result.now ≡ held self.now }
    {
        &self.row[..self.used.min(self.row.len())]
    }
}
