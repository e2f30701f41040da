// Closing the gaps that a purge leaves.
ghost use Rattle.std.specs.Prelude.{◌≡◌, ◌-◌, ◌≤◌, length, take, drop};
ghost use Rattle.std.specs.Fn.{CalledAt};
ghost use Rattle.std.specs.List.Retain.{IsFiltered};
ghost use Rattle.history.specs.Entries.{kept};
ghost use Rattle.places.specs.AppendLists.{held, left, size};

use crate::AppendList;
use ids::IdSet;
use model::Entry;

// Moves the items at which the test answers true to the front, in their order, and says how many they are.
// What lies behind them stays as it is.
fn retain<T: Copy, F: FnMut(&T) -> bool>(items: &mut [T], mut keeps: F) -> usize
    requires { F.IsAlwaysCallable keeps }
    ensures filtered { IsFiltered (CalledAt F.FnMut) keeps items.old (take result items.new) }
    ensures rest { drop result items.new ≡ drop result items.old }
    ensures bound { result ≤ length items.old }
{
    let mut kept = 0;
    // by index: it reads at one place of the slice and writes at an earlier one
    for i in 0..items.len() {
        let item = items[i];
        if keeps(&item) {
            items[kept] = item;
            kept += 1;
        }
    }
    kept
}

// Moves the entries of other nodes than these to the front, in their order, and says how many they are.
pub fn compact(entries: &mut [Entry], ids: IdSet) -> usize
    ensures count { result ≡ length (kept ids entries.old) }
    ensures front { take result entries.new ≡ kept ids entries.old }
    ensures rest { drop result entries.new ≡ drop result entries.old }
{
    retain(entries, |entry| !ids.has(entry.id()))
}

impl AppendList<'_, Entry> {
    // Takes the entries of these nodes out.
    pub fn purge(&mut self, ids: IdSet)
        ensures items { held self.new ≡ kept ids (held self.old) }
        ensures room { left self.new ≡ size self.old - length (kept ids (held self.old)) }
        ensures places { size self.new ≡ size self.old }
    {
        let used = self.used.min(self.row.len());
        self.used = compact(&mut self.row[0..used], ids);
    }
}
