// The entries of a case record, one after the other.
ghost use Rattle.std.specs.Iterator.{YieldsFirst, item_count};
ghost use Rattle.case_record.specs.Coming.{coming};

use crate::RawEntry;
use std::slice;

// The pieces of those that are still to come.
#[derive(Drop)]
pub struct Entries<'a> {
    pub(crate) pieces: slice::Iter<'a, [u8; 3]>,
}

impl Iterator for Entries<'_> {
    type Item = RawEntry;

    ghost next_gives = { YieldsFirst coming };

    ghost remaining = { item_count coming };

    fn next(&mut self) -> Option<RawEntry> {
        let piece = self.pieces.next()?;
        Some(RawEntry::from(*piece))
    }
}
