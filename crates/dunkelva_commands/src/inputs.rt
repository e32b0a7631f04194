//! Checks of the input files before they are compared.

use dunkelva_messages::error::Result;
use dunkelva_messages::hints::{begins_with, refuse_not_text};
use dunkelva_messages::lines::line_bytes;

/// Returns whether `line` has no control characters except tabs and carriage returns.
fn is_plain(line: &[u8]) -> bool {
    line.iter()
        .all(|byte| *byte >= b' ' || *byte == b'\t' || *byte == b'\r')
}

/// Returns whether the regular file `file` begins with a `P`, but is text by its first line. The
/// first column of a CSV file may be named `PAR1`, with which a Parquet file begins.
fn begins_as_text(rt: &HostRuntime, file: &str) -> bool {
    if !begins_with(rt, file, b'P') {
        return false;
    }
    match line_bytes(rt, file, 1) {
        Some(line) => is_plain(&line),
        None => false,
    }
}

/// Fails if the first bytes of the regular file `file` show a known format that is not UTF-8 text,
/// such as gzip. A file that can't be read twice, such as a pipe, is not refused.
pub(crate) fn refuse_packed(rt: &HostRuntime, file: &str) -> Result<()> {
    if begins_as_text(rt, file) {
        return Ok(());
    }
    refuse_not_text(rt, file)
}
