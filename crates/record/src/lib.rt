// Lines and the records that they spell.
#![tactic(auto)]

mod digit_values;
mod hex;
mod items;
mod laws;
mod lines;
mod records;
mod schemas;
#[cfg(test)]
mod tests;

pub use hex::digits;
pub use items::item;
pub use laws::{decoding_inverts_hex, reading_inverts_writing};
use model::refusal::SchemaRefusal;
pub use schemas::{SchemaRecord, pair, pairs};
use std::error::Error;
use std::fmt;
use std::marker::Model;

// How many characters a line may have.
pub const LINE_LIMIT: usize = 1024;

// How many bytes it then spells, two characters each.
const RECORD_LIMIT: usize = LINE_LIMIT / 2;

// How many characters are held of a line: with one more than it may have, the line is too long.
const HELD_LIMIT: usize = LINE_LIMIT + 1;

// What was given is not the writing of what was to be read.
#[derive(Clone, Copy, PartialEq, Eq, Debug)]
pub struct Malformed;

impl fmt::Display for Malformed {
    fn fmt<W: fmt::Write>(&self, f: &mut fmt::Formatter<W>) -> fmt::Result {
        f.write_str("the bytes are no record")
    }
}

impl Error for Malformed {}

// A schema line is then refused as a line.
impl From<Malformed> for SchemaRefusal {
    ghost use Rattle.std.specs.Prelude.{◌≡◌};
    ghost use Rattle.model.specs.declared.refusal.SchemaRefusal.TheVariants.{Line};

    ghost from_gives = { λ _ refusal. refusal ≡ Line };

    fn from(_malformed: Malformed) -> SchemaRefusal {
        SchemaRefusal::Line
    }
}

// The bytes that a line spells.
#[derive(Drop)]
pub struct Record {
    bytes: [u8; RECORD_LIMIT],
    len: usize,
}

// A clause sees the bytes.
impl Model for Record {
    ghost use Rattle.std.specs.Prelude.{◌≡◌, ℕ, ◌≤◌, List, length, take};

    ghost Value = { List ℕ };

    ghost view = { λ r. take r.len r.bytes };

    ghost invariant = { λ r. (r.len ≤ 512) × (length r.bytes ≡ 512) };
}

// A line as it comes in. Of a line that is too long, the first characters are held. An array with its length, since a vector of
// fixed capacity writes over each character when it is cleared.
#[derive(Drop)]
pub struct LineBuffer {
    chars: [u8; HELD_LIMIT],
    len: usize,
}

// A clause sees what is held of the line.
impl Model for LineBuffer {
    ghost use Rattle.std.specs.Prelude.{◌≡◌, ◌≤◌, length, take};
    ghost use Rattle.record.specs.Lines.{HeldLine, held_of};

    ghost Value = { HeldLine };

    ghost view = { λ b. held_of (take b.len b.chars) };

    ghost invariant = { λ b. (b.len ≤ 1025) × (length b.chars ≡ 1025) };
}
