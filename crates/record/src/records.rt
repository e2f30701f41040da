// Reading a line's hexadecimal.
ghost use Rattle.std.specs.Prelude.{◌≡◌, ◌≤◌, length};
ghost use Rattle.record.specs.Records.{DecodesTo};

use crate::digit_values::digit_value;
use crate::{LINE_LIMIT, Malformed, RECORD_LIMIT, Record};

// The record that a line spells, if it is hexadecimal of at least one byte and not too long.
impl TryFrom<&[u8]> for Record {
    type Error = Malformed;

    ghost try_from_gives = { λ line r. DecodesTo line.now r };

    fn try_from(line: &[u8]) -> Result<Record, Malformed> {
        if line.is_empty() || line.len() % 2 != 0 || line.len() > LINE_LIMIT {
            return Err(Malformed);
        }
        let mut bytes = [0; RECORD_LIMIT];
        // 16 or more once a character was no digit
        let mut seen = 0;
        for (i, &[high, low]) in line.as_chunks::<2>().0.iter().enumerate() {
            let high = digit_value(high);
            let low = digit_value(low);
            seen |= high | low;
            bytes[i] = high.wrapping_mul(16).wrapping_add(low);
        }
        if seen >= 16 {
            return Err(Malformed);
        }
        Ok(Record {
            bytes,
            len: line.len() / 2,
        })
    }
}

impl Record {
    pub fn bytes(&self) -> &[u8]
        ensures bytes { result.now ≡ self.now }
        ensures few { length result.now ≤ 512 }
    {
        &self.bytes[..self.len]
    }
}
