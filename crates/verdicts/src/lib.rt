// What comes of judging a case, and how it is written. Verdicts are only written: nothing reads them.
#![tactic(auto)]

ghost use Rattle.std.specs.Prelude.{◌≡◌, ◌/◌, ◌%◌, [], ◌∷◌};
ghost use Rattle.verdicts.specs.Verdicts.{verdict_bytes, verdict_line, place_of, id_of};

#[cfg(test)]
mod tests;

use model::refusal::Reason;
use record::digits;

// The case with this number was moved, or why it was not.
#[derive(Clone, Copy, PartialEq, Eq, Debug)]
pub struct Verdict {
    pub refusal: Option<Reason>,
    pub case: u32,
}

impl Verdict {
    // The two bytes of its place, FFFF where there is none. A place in a record is below 65,536; of a greater one, which no
    // refusal tells, the low 16 bits are written.
    fn place(&self) -> [u8; 2]
        ensures { result ≡ place_of self.now.refusal / 256 % 256 ∷ place_of self.now.refusal % 256 ∷ [] }
    {
        let place = match self.refusal {
            Some(
                Reason {
                    place: Some(place),
                    ..
                },
            ) => (place % 0x1_0000) as u16,
            _ => 0xFFFF,
        };
        place.to_be_bytes()
    }

    fn id(&self) -> u8
        ensures { result ≡ id_of self.now.refusal }
    {
        match self.refusal {
            Some(Reason { id: Some(id), .. }) => id,
            _ => 0xFF,
        }
    }

    // The bytes of its record.
    fn bytes(&self) -> [u8; 10]
        ensures { result ≡ verdict_bytes self.now }
    {
        let [n3, n2, n1, n0] = self.case.to_be_bytes();
        let (answer, layer) = match self.refusal {
            Some(reason) => (reason.number, reason.layer),
            None => (0, 0),
        };
        let [high, low] = self.place();
        [4, n3, n2, n1, n0, answer, layer, high, low, self.id()]
    }

    // Its line, without the newline.
    pub fn line(&self) -> [u8; 20]
        ensures { result ≡ verdict_line self.now }
    {
        let mut line = [b'0'; 20];
        for (place, byte) in self.bytes().iter().enumerate() {
            let [high, low] = digits(*byte);
            line[2 * place] = high;
            line[2 * place + 1] = low;
        }
        line
    }
}
