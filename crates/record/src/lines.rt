// A buffer for lines that come in character by character.
ghost use Rattle.std.specs.Prelude.{◌≡◌, ℕ, ◌≤◌, List, [], ◌∷◌, ◌++◌, length, IfSome};
ghost use Rattle.std.specs.List.{fold};
ghost use Rattle.std.specs.Option.{option_map};
ghost use Rattle.record.specs.Lines.{Short, held_of, pushed, whole_line};

use crate::{HELD_LIMIT, LINE_LIMIT, LineBuffer};

impl LineBuffer {
    pub fn new() -> LineBuffer
        ensures { result ≡ Short [] }
    {
        LineBuffer {
            chars: [0; HELD_LIMIT],
            len: 0,
        }
    }

    // Makes room for the next line.
    pub fn clear(&mut self)
        ensures { self.new ≡ Short [] }
    {
        self.len = 0;
    }

    // One more character of the line. A line that is once too long stays so.
    pub fn push(&mut self, character: u8)
        ensures value { self.new ≡ pushed self.old character }
        ensures grows { (cs : List ℕ) → self.old ≡ held_of cs → self.new ≡ held_of (cs ++ character ∷ []) }
    {
        if self.len < HELD_LIMIT {
            self.chars[self.len] = character;
            self.len += 1;
        }
    }

    // More characters of the line, as if each was pushed. Those that have no place are left out: the line is then too long with or
    // without them.
    #[tactic(auto, using(crate::proofs::Lengthening::extended))]
    pub fn extend(&mut self, characters: &[u8])
        ensures value { self.new ≡ fold pushed self.old characters.now }
        ensures grows { (cs : List ℕ) → self.old ≡ held_of cs → self.new ≡ held_of (cs ++ characters.now) }
    {
        let room = HELD_LIMIT - self.len;
        let held = &characters[..characters.len().min(room)];
        let end = self.len + held.len();
        self.chars[self.len..end].copy_from_slice(held);
        self.len = end;
    }

    // The line, unless it is too long.
    pub fn line(&self) -> Option<&[u8]>
        ensures value { option_map (λ x. x.now) result ≡ whole_line self.now }
        ensures few { IfSome result (λ x. length x.now ≤ 1024) }
    {
        if self.len > LINE_LIMIT {
            None
        } else {
            Some(&self.chars[..self.len])
        }
    }
}
