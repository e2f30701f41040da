// What stores and worklists hold, as programs print it.
#![tactic(auto)]

use history::Store;
use std::fmt;
use worklist::Worklist;

// Prints as the entries that a store holds, in their order.
#[derive(Clone, Copy)]
pub struct History<'a, S: Store>(pub &'a S);

impl<S: Store> fmt::Display for History<'_, S> {
    fn fmt<W: fmt::Write>(&self, f: &mut fmt::Formatter<W>) -> fmt::Result {
        let History(store) = self;
        let length = store.len();
        if length == 0 {
            return f.write_str("-");
        }
        // by place: a store has no items to go over
        for place in 0..length {
            let comma = if place == 0 { "" } else { ", " };
            if let Some(entry) = store.entry(place) {
                write!(f, "{comma}{entry}")?;
            }
        }
        Ok(())
    }
}

// Prints as these ids, in their order.
#[derive(Clone, Copy)]
pub struct Ids<'a>(pub &'a [u8]);

impl fmt::Display for Ids<'_> {
    fn fmt<W: fmt::Write>(&self, f: &mut fmt::Formatter<W>) -> fmt::Result {
        let Ids(ids) = self;
        if ids.is_empty() {
            return f.write_str("-");
        }
        for (i, id) in ids.iter().enumerate() {
            let gap = if i == 0 { "" } else { " " };
            write!(f, "{gap}{id}")?;
        }
        Ok(())
    }
}

// Prints as the ids that a worklist offers, ascending.
#[derive(Clone, Copy)]
pub struct Offered<'a, W: Worklist>(pub &'a W);

impl<W: Worklist> fmt::Display for Offered<'_, W> {
    fn fmt<V: fmt::Write>(&self, f: &mut fmt::Formatter<V>) -> fmt::Result {
        let Offered(worklist) = self;
        let mut none = true;
        // over all ids: a worklist has no items to go over
        for id in 0..64 {
            if worklist.has(id) {
                let gap = if none { "" } else { " " };
                write!(f, "{gap}{id}")?;
                none = false;
            }
        }
        if none { f.write_str("-") } else { Ok(()) }
    }
}
