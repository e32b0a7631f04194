//! Lines of input files, which are read again for hints.

use crate::files::open_again;
use std::io::{BufRead, BufReader};

/// The characters that may stand between the tokens of JSON within a line.
pub(crate) const BLANKS: [char; 3] = [' ', '\t', '\r'];

/// Opens the regular file `file` again, and returns the bytes of the line with the number `line`,
/// without the line feed. The first line is 1. Returns `None` if the file can't be read again or
/// has no such line, or if an allocation fails.
pub fn line_bytes(rt: &HostRuntime, file: &str, line: u64) -> Option<Vec<u8>> {
    let reader = BufReader::new(rt.alloc(), open_again(rt, file)?).ok()?;
    let mut number = 1_u64;
    for bytes in reader.split(rt.alloc(), b'\n') {
        let bytes = bytes.ok()?;
        if number == line {
            return Some(bytes);
        }
        number = number.saturating_add(1);
    }
    None
}
