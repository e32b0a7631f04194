//! A warning about numbers that are written with a comma. These are compared as texts even where
//! numbers are compared by value.

use csv::ByteRecord;
use diff_csv::source::Source;
use diff_run::options::Options;
use dunkelva_messages::files::open_again;
use dunkelva_messages::names::quoted;
use polars_arrays_flat::byte_rows::ByteRows;
use std::alloc::Global;

/// The greatest number of rows of a file in which numbers with a comma are searched.
const MOST_ROWS: usize = 1000;

/// Returns whether `cell` is a number with a comma, as `12,50` or `-1.234,5`: after an optional
/// minus sign it has only digits, points and commas, with a digit at both ends and a comma between.
fn has_comma(cell: &[u8]) -> bool {
    let digits = cell.strip_prefix(b"-").unwrap_or(cell);
    let is_number = digits.iter().all(|byte| byte.is_ascii_digit()
        || *byte == b'.'
        || *byte == b',');
    let first = digits.first().is_some_and(|byte| byte.is_ascii_digit());
    let last = digits.last().is_some_and(|byte| byte.is_ascii_digit());
    is_number && first && last && digits.contains(&b',')
}

/// Returns whether `options` demand that numbers in the column named `name` are compared by value.
fn has_numbers(name: &[u8], options: &Options<'_>) -> bool {
    let has_tolerance = options
        .tolerances
        .unwrap_or(&[])
        .iter()
        .any(|tolerance| tolerance.column == name);
    let is_number = options.numbers.is_some_and(|texts| !texts.contains(&name));
    let is_only = options.choice.only.is_none_or(|only| only.contains(&name));
    let is_chosen = is_only && !options.choice.ignored.contains(&name);
    let is_compared = is_chosen || options.choice.keys.contains(&name);
    is_compared && (is_number || has_tolerance)
}

/// Searches `row` for a number with a comma in a column whose numbers are compared by value.
/// Returns the first such number and its column, as `"12,50" in column "price"`. `names` are the
/// names of the columns. Returns `None` if there is none, if a cell is missing, if the column's
/// name is not UTF-8, or if an allocation fails.
fn found_in<N: ByteRows>(
    alloc: Global,
    names: &N,
    row: &ByteRecord,
    options: &Options<'_>,
) -> Option<String> {
    for c in 0..names.count() {
        let (name, cell) = (names.bytes(c), row.get(c)?);
        if has_comma(cell) && has_numbers(name, options) {
            let number = quoted(str::from_utf8(cell).ok()?);
            let name = quoted(str::from_utf8(name).ok()?);
            return format!(in alloc; "{number} in column {name}").ok();
        }
    }
    None
}

/// Reads the first `MOST_ROWS` rows of the regular file `file` again, and returns the first number
/// with its column that `found_in` finds in them. Returns `None` if it finds none, if the file
/// can't be read again, or if an allocation fails.
fn found(rt: &HostRuntime, file: &str, options: &Options<'_>) -> Option<String> {
    let alloc = rt.alloc();
    let source = Source::open(alloc, open_again(rt, file)?, options.csv).ok()?;
    let names = source.names(alloc).ok()?;
    let mut reader = source.rows(alloc).ok()?;
    let mut row = Box::new(alloc, ByteRecord::new(alloc)).ok()?;
    for _ in 0..MOST_ROWS {
        reader.read(&mut row).ok()??;
        if let Some(found) = found_in(alloc, &names, &row, options) {
            return Some(found);
        }
    }
    None
}

/// Prints a warning on standard error if one of the first rows of `left` or `right` has a number
/// with a comma in a column whose numbers are compared by value, since this number is compared as a
/// text. Prints only one warning. A file that can't be read again is not searched.
pub fn warn_of_commas(rt: &HostRuntime, left: &str, right: &str, options: &Options<'_>) {
    if options.numbers.is_none() && options.tolerances.is_none() {
        return;
    }
    for file in [left, right] {
        if let Some(found) = found(rt, file, options) {
            let _ = eprintln!(rt;
                "dunkelva: warning: {file}: {found} is compared as text: numbers have no comma"
            );
            return;
        }
    }
}
