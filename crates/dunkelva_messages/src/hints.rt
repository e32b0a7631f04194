//! Hints about files that can't be compared.

use crate::error::{About, Error, Lengths, Result};
use crate::files::open_again;
use crate::lines::{BLANKS, line_bytes};
use crate::slips::slip_at;
use std::fs;
use std::io::Read;

/// The hint for UTF-16 text that begins with a byte order mark.
const UTF_16: &str = "it is UTF-16: convert it, as in <(iconv -f UTF-16 -t UTF-8 FILE)";

/// The first bytes of files of known formats that are not UTF-8 text, each with a hint.
const FORMATS: [(&[u8], &str); 6] = [
    (
        b"\x1f\x8b",
        "it is compressed by gzip: unpack it, as in <(zcat FILE)",
    ),
    (
        b"\x28\xb5\x2f\xfd",
        "it is compressed by zstd: unpack it, as in <(zstdcat FILE)",
    ),
    (
        b"PK\x03\x04",
        "it is a zip archive, as spreadsheets are: save it as CSV",
    ),
    (b"PAR1", "it is Parquet: save it as CSV"),
    (b"\xff\xfe", UTF_16),
    (b"\xfe\xff", UTF_16),
];

/// Returns a hint if `head`, at most the first four bytes of a file, shows a known format that is
/// not UTF-8 text, such as gzip, and else `None`.
fn format_hint(head: &[u8]) -> Option<&'static str> {
    for (start, hint) in &FORMATS {
        if head.starts_with(start) {
            return Some(*hint);
        }
    }
    match head {
        [(1..), 0, (1..), 0] => {
            Some("it is UTF-16: convert it, as in <(iconv -f UTF-16LE -t UTF-8 FILE)")
        }
        _ => None,
    }
}

/// Returns a hint if the first bytes of the regular file `file` show a known format that is not
/// UTF-8 text. Otherwise, or if the file can't be read again, returns `None`.
fn what_is(rt: &HostRuntime, file: &str) -> Option<&'static str> {
    let mut reader = open_again(rt, file)?;
    let mut head = [0; 4];
    let count = reader.read(&mut head).ok()?;
    format_hint(head.get(..count)?)
}

/// Fails if the first bytes of the regular file `file` show a known format that is not UTF-8 text,
/// such as gzip. A file that can't be read again is not refused.
pub fn refuse_not_text(rt: &HostRuntime, file: &str) -> Result<()> {
    match what_is(rt, file) {
        Some(what) => Err(trouble!("{what}").context(file)),
        None => Ok(()),
    }
}

/// Returns whether the first byte of the regular file `file` is `byte`. Returns false if the file
/// can't be read again.
pub fn begins_with(rt: &HostRuntime, file: &str, byte: u8) -> bool {
    let Some(mut reader) = open_again(rt, file) else {
        return false;
    };
    let mut head = [0];
    matches!(reader.read(&mut head), Ok(1)) && head == [byte]
}

/// Returns a hint for the regular file `file`, which can't be read as CSV, if it seems to have JSON
/// documents because its first byte is `{`. Otherwise returns `None`.
fn records_hint(rt: &HostRuntime, file: &str) -> Option<&'static str> {
    begins_with(rt, file, b'{').then_some("it looks like JSON lines: give --input ndjson")
}

/// The characters that commonly separate fields, each with a hint that asks whether it is the
/// delimiter.
const DELIMITERS: [(char, &str); 5] = [
    (';', "is ';' the --delimiter?"),
    ('\t', "is a tab the --delimiter? It is \\t"),
    ('|', "is '|' the --delimiter?"),
    (',', "is ',' the --delimiter?"),
    ('\u{1}', "is the byte 1 the --delimiter? It is \\x01"),
];

/// Returns whether `line` tells a spreadsheet the delimiter, as `sep=;` does. A byte order mark
/// before it and a carriage return after it do not count.
fn names_delimiter(line: &str) -> bool {
    let line = line.trim_start_matches('\u{feff}').trim_end_matches('\r');
    matches!(line.strip_prefix("sep="), Some(rest) if rest.len() == 1)
}

/// The hint for a file whose first line tells a spreadsheet the delimiter.
const NO_RECORD: &str =
    "the first line tells a spreadsheet the delimiter: leave it out, as in <(tail -n +2 FILE)";

/// Returns a hint if the first line of the regular file `file` tells a spreadsheet the delimiter.
/// Otherwise, or if the line can't be read again, returns `None`.
pub fn first_line_hint(rt: &HostRuntime, file: &str) -> Option<&'static str> {
    let first = line_bytes(rt, file, 1)?;
    names_delimiter(str::from_utf8(&first).ok()?).then_some(NO_RECORD)
}

/// Returns a hint for the regular file `file`, whose first record has to have a single field. The
/// hint asks whether a character in the first line is the delimiter. Returns `None` if the line has
/// none of the characters in `DELIMITERS`, or can't be read again.
fn delimiter_hint(rt: &HostRuntime, file: &str) -> Option<&'static str> {
    let bytes = line_bytes(rt, file, 1)?;
    let first = str::from_utf8(&bytes).ok()?;
    for (delimiter, question) in &DELIMITERS {
        if first.contains(*delimiter) {
            return Some(*question);
        }
    }
    None
}

/// Returns a hint for a record with too many fields. The hint asks whether a field that has the
/// byte `delimiter` in it lacks quotes.
fn fields_hint(delimiter: u8) -> &'static str {
    match delimiter {
        b',' => "is a field with a comma not in quotes?",
        b'\t' => "is a field with a tab not in quotes?",
        b';' => "is a field with a semicolon not in quotes?",
        _ => "is a field with the delimiter not in quotes?",
    }
}

/// Returns a hint for a record with too many fields in the regular file `file`. The hint depends on
/// the line at which the record begins, `lengths.line`, and on the numbers of fields.
fn record_hint(rt: &HostRuntime, file: &str, lengths: Lengths) -> &'static str {
    let Some(bytes) = line_bytes(rt, file, lengths.line) else {
        return fields_hint(lengths.delimiter);
    };
    let line = bytes.strip_suffix(b"\r").unwrap_or(&bytes);
    if line.windows(2).any(|pair| pair == br#"\""#.as_slice()) {
        return "it has quotes written as \\\": in CSV a quote is written twice";
    }
    if lengths.found == lengths.expected.saturating_add(1) && line.ends_with(&[lengths.delimiter]) {
        return "it ends with a delimiter, and the first record does not";
    }
    if lengths.expected == 1 {
        return "is line 1 a title? Leave it out, as in <(tail -n +2 FILE)";
    }
    fields_hint(lengths.delimiter)
}

/// Returns a hint for the regular file `file`, in which a record has another number of fields than
/// the first one, or `None` if no hint is known. `lengths` has both numbers.
fn lengths_hint(rt: &HostRuntime, file: &str, lengths: Lengths) -> Option<&'static str> {
    if let Some(hint) = records_hint(rt, file) {
        return Some(hint);
    }
    if let Some(hint) = first_line_hint(rt, file) {
        return Some(hint);
    }
    if lengths.expected == 1
        && let Some(question) = delimiter_hint(rt, file)
    {
        return Some(question);
    }
    if lengths.found > lengths.expected {
        Some(record_hint(rt, file, lengths))
    } else {
        None
    }
}

/// Returns a hint for an NDJSON file whose first line, `text`, is not a document, or `None` if no
/// hint is known.
fn start_hint(text: &str) -> Option<&'static str> {
    let start = text.trim_matches(BLANKS);
    if text.starts_with('\u{feff}') {
        Some("the file begins with a byte order mark: remove it, as tail -c +4 does")
    } else if start.starts_with('[') {
        Some("the file begins with a list: jq -c '.[]' makes a line of each item")
    } else if start == "{" {
        Some("the file has documents of many lines: jq -c . makes a line of each")
    } else {
        None
    }
}

/// The hint for a line that is not UTF-8.
const NO_TEXT: &str =
    "the line is not UTF-8: convert the file, as in <(iconv -f LATIN1 -t UTF-8 FILE)";

/// Returns a hint for the line with the number `line` of the regular file `file`, or `None` if no
/// hint is known. The line is not a document, and the fault is at `column`. The first line and the
/// first column are 1.
fn line_hint(rt: &HostRuntime, file: &str, line: u64, column: u64) -> Option<&'static str> {
    let bytes = line_bytes(rt, file, line)?;
    let Ok(text) = str::from_utf8(&bytes) else {
        return Some(NO_TEXT);
    };
    if line == 1
        && let Some(hint) = start_hint(text)
    {
        return Some(hint);
    }
    if text.trim_matches(BLANKS).is_empty() {
        return Some("the line is empty: remove it, as grep . does");
    }
    slip_at(rt.alloc(), text, column)
}

/// Returns a hint for `error`, or `None` if it is about no file, or no hint is known.
fn hint_of(rt: &HostRuntime, error: &Error) -> Option<&'static str> {
    let file = error.file()?;
    match error.part() {
        About::Records => records_hint(rt, file),
        About::Lengths(lengths) => lengths_hint(rt, file, lengths),
        About::Line { line, column } => line_hint(rt, file, line, column),
        About::OneKey | About::Other => None,
    }
}

/// Returns `error`, with a hint added to its message if one is known.
fn with_hint(rt: &HostRuntime, error: Error) -> Error {
    match hint_of(rt, &error) {
        Some(hint) => error.hint(hint),
        None => error,
    }
}

/// Returns a description of the input `name` if it can't be compared because it is a folder, or a
/// file of a known format that is not UTF-8 text. Otherwise returns `None`.
fn what_input_is(rt: &HostRuntime, name: &str) -> Option<&'static str> {
    if name != "-" && fs::metadata(rt, name).ok()?.is_dir() {
        return Some("it is a folder, not a file");
    }
    what_is(rt, name)
}

/// Returns the error to print for `error`, which occurred while `files` were compared. If one of
/// the files is a folder, or has a known format that is not UTF-8 text, returns an error that says
/// so, unless `error` is about another file. Otherwise returns `error`, with a hint if one is
/// known.
pub fn explained(rt: &HostRuntime, error: Error, files: &[&str]) -> Error {
    for file in files {
        let is_of_other = matches!(error.file(), Some(name) if name != *file);
        if let Some(what) = what_input_is(rt, file)
            && !is_of_other
        {
            return trouble!("{what}").context(file);
        }
    }
    with_hint(rt, error)
}
