// The words of a line that says a call: its name, and the numbers behind it.
ghost use Rattle.std.specs.Prelude.{◌≡◌, ℕ, List, MatchResult};
ghost use Rattle.std.specs.Str.Iter.{split_whitespace_rest};
ghost use Rattle.input.specs.Words.{NameOf, NextWord, NoWord, NumberNext, NumberOf, TextOf, left};

use record::LineBuffer;
use std::error::Error;
use std::fmt;
use std::str::SplitWhitespace;

// Why a line says no call.
#[derive(Clone, Copy, PartialEq, Eq, Debug)]
pub enum NoCall {
    // it is too long, or no text
    Line,
    Name,
    // a number is missing
    Missing,
    // a word is no number up to this one
    Number(u32),
    // there is a word too many
    More,
}

impl fmt::Display for NoCall {
    fn fmt<W: fmt::Write>(&self, f: &mut fmt::Formatter<W>) -> fmt::Result {
        match self {
            NoCall::Line => write!(f, "over 1,024 characters, or no text"),
            NoCall::Name => write!(f, "no such call"),
            NoCall::Missing => write!(f, "a number is missing"),
            NoCall::Number(most) => write!(f, "a word that is no number from 0 to {most}"),
            NoCall::More => write!(f, "a word too many"),
        }
    }
}

impl Error for NoCall {}

// The text of a line.
pub fn text_of(line: &LineBuffer) -> Result<&str, NoCall>
    ensures { MatchResult result (λ text. TextOf line.now text.now) (λ _. (text : List ℕ) → TextOf line.now text → ⊥) }
{
    let characters = line.line().ok_or(NoCall::Line)?;
    str::from_utf8(characters).map_err(|_| NoCall::Line)
}

// The id or branch that a word writes.
pub fn byte_of(word: &str) -> Result<u8, NoCall>
    ensures { NumberOf 8 word.now result }
{
    word.parse::<u8>().map_err(|_| NoCall::Number(255))
}

// The number of a case that a word writes.
pub fn number_of(word: &str) -> Result<u32, NoCall>
    ensures { NumberOf 32 word.now result }
{
    word.parse::<u32>().map_err(|_| NoCall::Number(u32::MAX))
}

// The words that are still to be read.
#[derive(Drop)]
pub struct Words<'a>(SplitWhitespace<'a>);

impl<'a> Words<'a> {
    pub fn of(text: &'a str) -> Words<'a>
        ensures { left result ≡ text.now }
    {
        Words(text.split_whitespace())
    }

    // The name of the call: no word is taken for an empty one, which names none.
    pub fn name(&mut self) -> &'a str
        ensures { NameOf (left self.old) result.now (left self.new) }
    {
        self.0.next().unwrap_or("")
    }

    // An id or a branch.
    pub fn byte(&mut self) -> Result<u8, NoCall>
        ensures { NumberNext 8 (left self.old) result (left self.new) }
    {
        byte_of(self.0.next().ok_or(NoCall::Missing)?)
    }

    // The number of a case.
    pub fn number(&mut self) -> Result<u32, NoCall>
        ensures { NumberNext 32 (left self.old) result (left self.new) }
    {
        number_of(self.0.next().ok_or(NoCall::Missing)?)
    }

    pub fn rest(self) -> SplitWhitespace<'a>
        ensures { split_whitespace_rest result ≡ left self.entry }
    {
        let Words(words) = self;
        words
    }

    pub fn end(self) -> Result<(), NoCall>
        ensures { MatchResult result (λ _. NoWord (left self.entry)) (λ _. (word more : List ℕ) × NextWord (left self.entry) word more) }
    {
        match self.rest().next() {
            Some(_) => Err(NoCall::More),
            None => Ok(()),
        }
    }
}
