// A line that came in through a buffer.
ghost use Rattle.std.specs.Prelude.{◌≡◌};
ghost use Rattle.judging.specs.Held.{held_characters};

use record::LineBuffer;

// Its characters; none for a line that is too long, since an empty line is refused as it is.
pub(crate) fn characters(line: &LineBuffer) -> &[u8]
    ensures { result.now ≡ held_characters line.now }
{
    line.line().unwrap_or(b"")
}
