// What is read from bytes that lie in pieces of one size.
ghost use Rattle.std.specs.Prelude.{◌<◌, ◌≤◌, [], length, MatchOption, slice_index_or};

// The item of the i-th piece; none past the end.
pub fn item<T: From<[u8; N]>, const N: usize>(pieces: &[[u8; N]], i: usize) -> Option<T>
    ensures { MatchOption result (length pieces.now ≤ i) (λ x. (i < length pieces.now) × T.from_gives (slice_index_or pieces.now i []) x) }
{
    let piece = pieces.get(i)?;
    Some(T::from(*piece))
}
