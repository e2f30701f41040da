// A schema record, taken apart.
ghost use Rattle.std.specs.Prelude.{◌≡◌, ◌<◌, ◌≤◌, map, length, IfSome, MatchOption, slice_index_or};
ghost use Rattle.std.specs.Option.{option_map};
ghost use Rattle.std.specs.List.{slice_get};
ghost use Rattle.record.specs.Pairs.{pair_of, pairs, Paired};
ghost use Rattle.record.specs.SchemaRecords.{edges_in};
ghost use Rattle.record.specs.Readings.{ReadsTo};

use crate::Malformed;

// A schema record as it stands in a line; nothing of it is judged yet. The rows are bare bytes and no pairs: anyone may
// build a record of any bytes, and pairs would ask more of them.
#[derive(Clone, Copy)]
pub struct SchemaRecord<'a> {
    pub version: u16,
    // the kind and the id of each element, one after the other
    pub elements: &'a [u8],
    // the source and the target of each edge
    pub edges: &'a [u8],
}

// Takes a record apart, if it is a schema record and just as long as its counts say.
impl<'a> TryFrom<&'a [u8]> for SchemaRecord<'a> {
    type Error = Malformed;

    ghost try_from_gives = { λ bytes r. ReadsTo bytes.now r };

    fn try_from(bytes: &'a [u8]) -> Result<SchemaRecord<'a>, Malformed> {
        let [1, high, low, count, rest @ ..] = bytes else {
            return Err(Malformed);
        };
        let length = 2 * usize::from(*count);
        let (elements, rest) = rest.split_at_checked(length).ok_or(Malformed)?;
        let edges = edges_in(rest).ok_or(Malformed)?;
        Ok(SchemaRecord {
            version: u16::from_be_bytes([*high, *low]),
            elements,
            edges,
        })
    }
}

// The bytes of the edges, if they are all that follows their count.
fn edges_in(bytes: &[u8]) -> Option<&[u8]>
    ensures value { option_map (λ x. x.now) result ≡ edges_in bytes.now }
    ensures whole { IfSome result (λ edges. Paired edges.now) }
{
    match bytes {
        [count, edges @ ..] if edges.len() == 2 * usize::from(*count) => Some(edges),
        _ => None,
    }
}

// Bytes that lie two by two; a lone last byte is dropped.
#[tactic(auto, using(crate::proofs::Pairings::pairs_pieces))]
pub fn pairs(bytes: &[u8]) -> &[[u8; 2]]
    ensures { map pair_of result.now ≡ pairs bytes.now }
{
    bytes.as_chunks::<2>().0
}

// The i-th pair of them; none past the end.
pub fn pair(bytes: &[u8], i: usize) -> Option<(u8, u8)>
    ensures value { result ≡ slice_get (pairs bytes.now) i }
    ensures cases { MatchOption result (length (pairs bytes.now) ≤ i) (λ p. (i < length (pairs bytes.now)) × (p ≡ slice_index_or (pairs bytes.now) i (0, 0))) }
{
    // by a pattern, which shows their order; `item` with the tuple's own conversion would hide it
    let [first, second] = *pairs(bytes).get(i)?;
    Some((first, second))
}
