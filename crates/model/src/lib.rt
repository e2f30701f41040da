// The words that every part of the engine speaks: elements of a row, sync edges, refusals.
#![tactic(auto)]

ghost use Rattle.std.specs.Prelude.{◌≡◌};
ghost use Rattle.model.specs.Elements.{element_read, Spells, node_id};
ghost use Rattle.model.specs.Entries.{entry_spelled, EntrySpells, entry_id};

pub mod refusal;

use bounded::Bounded;
use std::error::Error;
use std::fmt;

// One element of a schema's row. Activities, decisions (of an XOR split) and tests (of a loop end) are
// its nodes, and only they have an id.
#[derive(Clone, Copy, PartialEq, Eq, Debug)]
pub enum Element {
    Activity(u8),
    AndSplit,
    Bar,
    AndJoin,
    XorSplit(u8),
    XorJoin,
    LoopStart,
    LoopEnd(u8),
}

// The id byte of an element that has none, and the branch byte of an entry that has none.
const NO_ID: u8 = 0xFF;

// A sync edge: its target waits for its source.
#[derive(Clone, Copy, PartialEq, Eq, Debug)]
pub struct Edge {
    pub source: u8,
    pub target: u8,
}

// What has happened to a node.
#[derive(Clone, Copy, PartialEq, Eq, Debug)]
pub enum Fact {
    Nothing,
    // of an activity
    Begun,
    Ended,
    // of a decision, for this branch
    Decided(u8),
    // of a test
    Left,
}

// What passes a gap of a row. An `Option<bool>` would be no plainer: the rules call the three by these names.
#[derive(Clone, Copy, PartialEq, Eq, Debug)]
pub enum Signal {
    None,
    True,
    False,
}

// What a node is doing.
#[derive(Clone, Copy, PartialEq, Eq, Debug)]
pub enum State {
    NotActivated,
    Activated,
    Running,
    Completed,
    Skipped,
}

// A step of a case, as its history keeps it.
#[derive(Clone, Copy, PartialEq, Eq, Debug)]
pub enum Entry {
    // of an activity
    Start(u8),
    End(u8),
    // of a decision, for this branch
    Choose(u8, u8),
    // of a test
    Leave(u8),
}

// The elements of a schema, in their order.
pub type Row = Bounded<Element, 128>;

// The sync edges of a schema, in the order in which they were listed.
pub type EdgeList = Bounded<Edge, 32>;

// Bytes that spell no element, or no entry.
#[derive(Clone, Copy, PartialEq, Eq, Debug)]
pub struct Unspelled;

// From a kind byte and an id byte.
impl TryFrom<(u8, u8)> for Element {
    type Error = Unspelled;

    ghost try_from_gives = { λ bytes element. element ≡ element_read bytes };

    fn try_from(bytes: (u8, u8)) -> Result<Element, Unspelled>
        ensures value { result ≡ element_read bytes }
        ensures spelled { Spells bytes result }
    {
        match bytes {
            (1, id) if id < 64 => Ok(Element::Activity(id)),
            (2, NO_ID) => Ok(Element::AndSplit),
            (3, NO_ID) => Ok(Element::Bar),
            (4, NO_ID) => Ok(Element::AndJoin),
            (5, id) if id < 64 => Ok(Element::XorSplit(id)),
            (6, NO_ID) => Ok(Element::XorJoin),
            (7, NO_ID) => Ok(Element::LoopStart),
            (8, id) if id < 64 => Ok(Element::LoopEnd(id)),
            _ => Err(Unspelled),
        }
    }
}

impl Element {
    // The id of its node, if it is one.
    pub fn id(self) -> Option<u8>
        ensures { result ≡ node_id self }
    {
        match self {
            Element::Activity(id) | Element::XorSplit(id) | Element::LoopEnd(id) => Some(id),
            Element::AndSplit
            | Element::Bar
            | Element::AndJoin
            | Element::XorJoin
            | Element::LoopStart => None,
        }
    }
}

// From a kind byte, an id byte and a branch byte.
impl TryFrom<(u8, u8, u8)> for Entry {
    type Error = Unspelled;

    ghost try_from_gives = { λ bytes entry. entry ≡ entry_spelled bytes };

    fn try_from(bytes: (u8, u8, u8)) -> Result<Entry, Unspelled>
        ensures value { result ≡ entry_spelled bytes }
        ensures spelled { EntrySpells bytes result }
    {
        match bytes {
            (1, id, NO_ID) => Ok(Entry::Start(id)),
            (2, id, NO_ID) => Ok(Entry::End(id)),
            (3, id, branch) => Ok(Entry::Choose(id, branch)),
            (4, id, NO_ID) => Ok(Entry::Leave(id)),
            _ => Err(Unspelled),
        }
    }
}

impl Entry {
    // The id of the node that the step is of.
    pub fn id(self) -> u8
        ensures { result ≡ entry_id self }
    {
        match self {
            Entry::Start(id) | Entry::End(id) | Entry::Choose(id, _) | Entry::Leave(id) => id,
        }
    }
}

// As programs print it.
impl fmt::Display for Entry {
    fn fmt<W: fmt::Write>(&self, f: &mut fmt::Formatter<W>) -> fmt::Result {
        match self {
            Entry::Start(id) => write!(f, "START {id}"),
            Entry::End(id) => write!(f, "END {id}"),
            Entry::Choose(id, branch) => write!(f, "CHOOSE {id} branch {branch}"),
            Entry::Leave(id) => write!(f, "LEAVE {id}"),
        }
    }
}

impl fmt::Display for Unspelled {
    fn fmt<W: fmt::Write>(&self, f: &mut fmt::Formatter<W>) -> fmt::Result {
        f.write_str("the bytes spell nothing")
    }
}

impl Error for Unspelled {}
