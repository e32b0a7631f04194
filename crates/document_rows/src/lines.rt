//! Reads the lines of an input, one after another.

ghost use Rattle.std.specs.Prelude.{◌≡◌, ℕ, List, Some, IfOk};
ghost use Rattle.document_rows.specs.LineParts.{TakesPart};
ghost use Rattle.document_rows.specs.Reading.{TakesLine};

use memchr::memchr;
use std::io::{BufRead, ErrorKind, Result};

/// The state of a line after a part of it was read.
#[derive(Clone, Copy, Drop)]
enum Part {
    /// The end of the line was not yet read.
    Open,
    /// The line feed at the end of the line was read.
    Ended,
    /// The input has ended, and nothing was read.
    Nothing,
}

/// Appends to `line` the bytes that `reader` has buffered, up to the next line feed, and consumes
/// them. Some are read first if none are buffered. The line feed is consumed but not appended.
/// Returns the state of the line after that. If the read was interrupted, appends nothing and
/// returns `Open`. Fails if the read fails for another reason, and with the kind `OutOfMemory` if
/// an allocation fails.
fn append_part<B: BufRead>(reader: &mut B, line: &mut Vec<u8>) -> Result<Part>
    ensures { IfOk result
        (λ part. (rest : List ℕ) → B.remaining reader.old ≡ Some rest
        → TakesPart B.remaining rest line.old.items line.new.items reader.new part) }
{
    let at_hand = match reader.fill_buf() {
        Ok(at_hand) => at_hand,
        Err(cause) => {
            // The read was interrupted. The caller tries again.
            if cause.kind() == ErrorKind::Interrupted {
                return Ok(Part::Open);
            }
            return Err(cause);
        }
    };
    if at_hand.is_empty() {
        return Ok(Part::Nothing);
    }
    match memchr(b'\n', at_hand) {
        Some(end) => {
            line.extend_from_slice(&at_hand[..end])?;
            reader.consume(end + 1);
            Ok(Part::Ended)
        }
        None => {
            let len = at_hand.len();
            line.extend_from_slice(at_hand)?;
            reader.consume(len);
            Ok(Part::Open)
        }
    }
}

/// Reads the next line into `line`, without its line feed. The last line may end without a line
/// feed. The previous contents of `line` are removed. Returns `false` if there are no more lines.
/// Fails if a read fails, and with the kind `OutOfMemory` if an allocation fails. An interrupted
/// read is tried again.
pub(crate) fn read_line<B: BufRead>(reader: &mut B, line: &mut Vec<u8>) -> Result<bool>
    ensures { IfOk result
        (λ found. (rest : List ℕ) → B.remaining reader.old ≡ Some rest
        → TakesLine B.remaining rest line.new.items reader.new found) }
{
    line.clear();
    for _ in 0..u64::MAX {
        match append_part(reader, line)? {
            Part::Open => {}
            Part::Ended => return Ok(true),
            Part::Nothing => return Ok(!line.is_empty()),
        }
    }
    // No memory holds this many parts.
    Err(ErrorKind::OutOfMemory.into())
}
