// The entries of a log that no later mark takes, from the last one back.
ghost use Rattle.std.specs.Prelude.{◌≡◌, ◌^◌, ◌<◌, length, reverse};
ghost use Rattle.std.specs.Iterator.{YieldsFirst, item_count};
ghost use Rattle.entry_log.specs.Backwards.{latest};
ghost use Rattle.entry_log.specs.Logs.{live};

use crate::LogRecord;
use ids::IdSet;
use model::Entry;
use std::slice;

// The records that are still to be read, and the nodes that the marks behind them take.
#[derive(Drop)]
pub struct LatestFirst<'a> {
    records: slice::Iter<'a, LogRecord>,
    gone: IdSet,
}

impl<'a> LatestFirst<'a> {
    pub fn of(records: &'a [LogRecord]) -> LatestFirst<'a>
        ensures items { latest result ≡ reverse (live records.now) }
        ensures few { length (latest result) < 2 ^ 64 }
    {
        LatestFirst {
            records: records.iter(),
            gone: IdSet::empty(),
        }
    }
}

impl Iterator for LatestFirst<'_> {
    type Item = Entry;

    ghost next_gives = { YieldsFirst latest };

    ghost remaining = { item_count latest };

    fn next(&mut self) -> Option<Entry> {
        while let Some(record) = self.records.next_back() {
            match *record {
                LogRecord::Purged(ids) => self.gone = self.gone.union(ids),
                LogRecord::Noted(entry) if !self.gone.has(entry.id()) => return Some(entry),
                LogRecord::Noted(_) => {}
            }
        }
        None
    }
}
