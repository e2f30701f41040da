// Lines from a stream, of which no more is held than a line may have, and the words of those that say a call.
#![tactic(auto)]

ghost use Rattle.std.specs.Prelude.{◌≡◌, false, [], IfOk};
ghost use Rattle.record.specs.Lines.{Short};
ghost use Rattle.input.specs.Chunks.{filled, parted};

use memchr::memchr;
use record::LineBuffer;
use std::io;
use std::io::BufRead;

#[cfg(test)]
mod tests;
pub mod words;

// Takes a line's characters from the front of a chunk of input. Answers how many bytes were used, and whether
// they end with the newline that ends the line. Both are wanted either way: an `Option` of the count would leave it
// to the caller to count what ends no line.
#[tactic(auto, using(crate::proofs::Parts::ended_parted, crate::proofs::Parts::ended_filled, crate::proofs::Parts::open_parted, crate::proofs::Parts::open_filled))]
pub fn fill(line: &mut LineBuffer, chunk: &[u8]) -> (usize, bool)
    ensures value { result ≡ parted 0 chunk.now }
    ensures after { line.new ≡ filled line.old chunk.now }
{
    match memchr(b'\n', chunk) {
        Some(end) => {
            line.extend(&chunk[..end]);
            (end + 1, true)
        }
        None => {
            line.extend(chunk);
            (chunk.len(), false)
        }
    }
}

// Reads the next line, without its newline; `false` where the input has ended. A last line needs no newline.
pub fn next_line<R: BufRead>(input: &mut R, line: &mut LineBuffer) -> io::Result<bool>
    ensures { IfOk result (λ more. (more ≡ false → line.new ≡ Short [])) }
{
    line.clear();
    let mut begun = false;
    // a count, since input may never end and each loop is proved to end
    for _ in 0..u64::MAX {
        // by arms: an interrupted read alone is tried again
        let chunk = match input.fill_buf() {
            Ok(chunk) => chunk,
            Err(error) if error.kind() == io::ErrorKind::Interrupted => continue,
            Err(error) => return Err(error),
        };
        if chunk.is_empty() {
            return Ok(begun);
        }
        let (used, ended) = fill(line, chunk);
        input.consume(used);
        if ended {
            return Ok(true);
        }
        begun = true;
    }
    Ok(begun)
}
