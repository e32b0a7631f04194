//! Hints about the names of a file's columns, for error messages.

use diff_csv::options::CsvOptions;
use diff_csv::source::Source;
use dunkelva_messages::error::Result;
use dunkelva_messages::files::open_again;
use dunkelva_messages::names::{MOST_NAMES, push_more, push_name, quoted};
use dunkelva_messages::near::distance;
use polars_arrays_flat::byte_rows::ByteRows;
use std::alloc::Global;

/// The bytes that commonly separate fields. If a file has a single column, the column's name is
/// searched for them.
const DELIMITERS: &[u8] = b",;\t|\x01";

/// Returns a list of the first `MOST_NAMES` of `names`, followed by the number of the remaining
/// ones, if there are any.
fn list_of<N: ByteRows>(alloc: Global, names: &N) -> Result<String> {
    let count = names.count();
    let mut text = String::new(alloc);
    for c in 0..count {
        if c < MOST_NAMES {
            push_name(&mut text, alloc, names.bytes(c), c == 0)?;
        }
    }
    push_more(&mut text, alloc, count.saturating_sub(MOST_NAMES))?;
    Ok(text)
}

/// Returns the index of the name in `names` that is most similar to `wanted` (`distance`). Returns
/// `None` if no name is similar. If several names are equally similar, returns the first one.
fn nearest<N: ByteRows>(names: &N, wanted: &[u8]) -> Option<usize> {
    let mut least = usize::MAX;
    let mut near = None;
    for c in 0..names.count() {
        if let Some(apart) = distance(names.bytes(c), wanted) {
            if apart < least {
                least = apart;
                near = Some(c);
            }
        }
    }
    near
}

/// Returns a byte that may be the real delimiter of a file that was read with `delimiter` and has
/// the columns `names`. If there is a single column, this is the first byte of its name that
/// commonly separates fields and is not `delimiter`. Otherwise, or if the name has no such byte,
/// returns `None`.
fn other_delimiter<N: ByteRows>(names: &N, delimiter: u8) -> Option<char> {
    if names.count() != 1 {
        return None;
    }
    for byte in names.bytes(0) {
        if *byte != delimiter && DELIMITERS.contains(byte) {
            return Some(char::from(*byte));
        }
    }
    None
}

/// Returns a question for a hint: whether `other` is the real delimiter of a file that was read
/// with `delimiter`. The question names the option `--delimiter` if `other` is the byte 1 or
/// `delimiter` is a comma, and otherwise names a program that converts a file. Returns `None` if an
/// allocation fails.
fn question_about_delimiter(alloc: Global, other: char, delimiter: u8) -> Option<String> {
    if other == '\u{1}' {
        return String::from_str(alloc, "is the byte 1 the --delimiter? It is \\x01.").ok();
    }
    if delimiter == b',' {
        return format!(in alloc;
            "is {other:?} the --delimiter? Both files need the same one."
        ).ok();
    }
    let both = "Both files need the same one: convert one of them, as csvformat does.";
    format!(in alloc; "is {other:?} its delimiter? {both}").ok()
}

/// Returns the first of `names` that has commas, and has `wanted` before, between or after them.
/// Returns `None` if there is no such name in UTF-8.
fn name_cut_at_comma<'n, N: ByteRows>(names: &'n N, wanted: &str) -> Option<&'n str> {
    for c in 0..names.count() {
        if let Ok(name) = str::from_utf8(names.bytes(c)) {
            if name.contains(',') && name.split(',').any(|part| part == wanted) {
                return Some(name);
            }
        }
    }
    None
}

/// Returns whether `wanted` is a number from 1 to 99, as the first columns of a file without a
/// header are named.
fn is_index(wanted: &str) -> bool {
    (1..=2).contains(&wanted.len())
        && !wanted.starts_with('0')
        && wanted.bytes().all(|byte| byte.is_ascii_digit())
}

/// Returns a question about the column name `wanted`, which is not among `names`, the columns of a
/// file read with the options `csv`: whether the file has another delimiter, whether `wanted` is
/// part of a name with a comma, whether the first line is a row, or whether a similar name was
/// meant. Returns `None` if none of these is likely, if the similar name is not UTF-8, or if an
/// allocation fails.
fn question_about<N: ByteRows>(
    alloc: Global,
    names: &N,
    csv: CsvOptions,
    wanted: &str,
) -> Option<String> {
    if let Some(other) = other_delimiter(names, csv.delimiter) {
        return question_about_delimiter(alloc, other, csv.delimiter);
    }
    if let Some(name) = name_cut_at_comma(names, wanted) {
        return format!(in alloc;
            "did you mean {}? Put quotes around a name with a comma, as in '\"a,b\"'.",
            quoted(name)
        )
        .ok();
    }
    if csv.has_header && is_index(wanted) {
        return String::from_str(alloc, "is line 1 a row? Then give --no-header.").ok();
    }
    let near = nearest(names, wanted.as_bytes())?;
    if near >= names.count() {
        return None;
    }
    let name = quoted(str::from_utf8(names.bytes(near)).ok()?);
    format!(in alloc; "did you mean {name}?").ok()
}

/// Returns a hint about the column name `wanted`, which is not among `names`: a question, if there
/// is one (`question_about`), and a list of `names`. If `file` is given, the hint says that these
/// are the columns of `file`. Returns `None` if an allocation fails.
fn hint_about<N: ByteRows>(
    alloc: Global,
    names: &N,
    csv: CsvOptions,
    wanted: &str,
    file: Option<&str>,
) -> Option<String> {
    let list = list_of(alloc, names).ok()?;
    let whose = match file {
        Some(file) => format!(in alloc; " of {file}").ok()?,
        None => String::new(alloc),
    };
    match question_about(alloc, names, csv, wanted) {
        Some(question) => format!(in alloc; "{question} The columns{whose} are {list}").ok(),
        None => format!(in alloc; "the columns{whose} are {list}").ok(),
    }
}

/// Reads the column names of `file` again, and returns a hint about the name `wanted`, which is not
/// among them. The hint lists the columns. It also asks a question, if a name is similar or another
/// byte may be the delimiter. If `is_named` is true, the hint names the file. Returns `None` if the
/// file has no columns, is not a regular file or can't be read again, or if an allocation fails.
pub(crate) fn columns_hint(
    rt: &HostRuntime,
    file: &str,
    csv: CsvOptions,
    wanted: &str,
    is_named: bool,
) -> Option<String> {
    let source = Source::open(rt.alloc(), open_again(rt, file)?, csv).ok()?;
    let names = source.names(rt.alloc()).ok()?;
    if names.count() == 0 {
        return None;
    }
    let file = is_named.then_some(file);
    hint_about(rt.alloc(), &names, csv, wanted, file)
}

/// Reads the regular file `file` again, and returns the name of the column at the index `column`,
/// from 0. Returns `None` if the file can't be read again or has no such column, if the name is not
/// UTF-8, or if an allocation fails.
pub(crate) fn column_name(
    rt: &HostRuntime,
    file: &str,
    csv: CsvOptions,
    column: usize,
) -> Option<String> {
    let source = Source::open(rt.alloc(), open_again(rt, file)?, csv).ok()?;
    let names = source.names(rt.alloc()).ok()?;
    if column >= names.count() {
        return None;
    }
    String::from_str(rt.alloc(), str::from_utf8(names.bytes(column)).ok()?).ok()
}
