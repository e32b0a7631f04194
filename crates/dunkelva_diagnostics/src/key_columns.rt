//! The key of a row, and a command that sorts a file by key, both for error messages. For these the
//! file is read again.

use csv::ByteRecord;
use diff_csv::source::Source;
use diff_run::options::Options;
use dunkelva_messages::files::open_again;
use dunkelva_messages::names::push_name;
use polars_arrays_flat::byte_rows::ByteRows;
use std::alloc::Global;

/// Returns the index of the first of `names` that equals `wanted`, or `None` if there is none.
fn place_of<N: ByteRows>(names: &N, wanted: &[u8]) -> Option<usize> {
    for c in 0..names.count() {
        if names.bytes(c) == wanted {
            return Some(c);
        }
    }
    None
}

/// Returns the index in `names` of each of the key columns `keys`. Returns `None` if one of them is
/// missing, or if an allocation fails.
fn places_of<N: ByteRows>(alloc: Global, names: &N, keys: &[&[u8]]) -> Option<Vec<usize>> {
    let mut places = Vec::new(alloc);
    for key in keys {
        places.push(place_of(names, key)?).ok()?;
    }
    Some(places)
}

/// Returns a list, as text, of the cells that `row` has at the indices `columns`. Returns `None` if
/// `row` lacks a cell, or if an allocation fails.
fn cells_of(alloc: Global, row: &ByteRecord, columns: &[usize]) -> Option<String> {
    let mut text = String::new(alloc);
    for (i, column) in columns.iter().enumerate() {
        push_name(&mut text, alloc, row.get(*column)?, i == 0).ok()?;
    }
    Some(text)
}

/// Reads the regular file `file` again, and returns the key of the row that begins at the line
/// `line`, as text. The first line is 1. Of several rows that begin at this line, the first one
/// counts. Returns `None` if the file can't be read again, lacks a key column or has no such row,
/// or if an allocation fails.
pub(crate) fn row_key(
    rt: &HostRuntime,
    file: &str,
    line: u64,
    options: &Options<'_>,
) -> Option<String> {
    let alloc = rt.alloc();
    let source = Source::open(alloc, open_again(rt, file)?, options.csv).ok()?;
    let columns = places_of(alloc, &source.names(alloc).ok()?, options.choice.keys)?;
    let mut reader = source.rows(alloc).ok()?;
    let mut row = Box::new(alloc, ByteRecord::new(alloc)).ok()?;
    // At most `line` rows begin up to this line, unless carriage returns alone end rows.
    for _ in 0..line {
        let begin = reader.read(&mut row).ok()??;
        if begin == line {
            return cells_of(alloc, &row, &columns);
        }
    }
    None
}

/// Returns `delimiter` as an argument for a shell, in quotes. Returns `None` if it is neither a tab
/// nor a printable ASCII character, or if an allocation fails.
fn in_shell(alloc: Global, delimiter: u8) -> Option<String> {
    match delimiter {
        b'\t' => String::from_str(alloc, "$'\\t'").ok(),
        b'\'' => String::from_str(alloc, "\"'\"").ok(),
        b' '..=b'~' => {
            let delimiter = char::from(delimiter);
            format!(in alloc; "'{delimiter}'").ok()
        }
        _ => None,
    }
}

/// Returns a shell command that sorts lines by the fields at the indices `columns`, from 0.
/// `delimiter` separates the fields. Returns `None` if `delimiter` can't be written in a shell
/// command (`in_shell`), or if an allocation fails.
fn sort_by(alloc: Global, columns: &[usize], delimiter: u8) -> Option<String> {
    let between = in_shell(alloc, delimiter)?;
    let mut command = format!(in alloc; "LC_ALL=C sort -t{between}").ok()?;
    for column in columns {
        let number = column.saturating_add(1);
        let key = format!(in alloc; " -k{number},{number}").ok()?;
        command.push_str(&key).ok()?;
    }
    Some(command)
}

/// Returns a shell command that sorts a file by the key columns in `options`. In the command,
/// `FILE` stands for the file. If the file has a header, the header stays the first line. Reads the
/// regular file `file` again to find the key columns. Returns `None` if the file can't be read
/// again or lacks a key column, if the delimiter can't be written in a shell command (`in_shell`),
/// or if an allocation fails.
pub(crate) fn sort_command(rt: &HostRuntime, file: &str, options: &Options<'_>) -> Option<String> {
    let alloc = rt.alloc();
    let source = Source::open(alloc, open_again(rt, file)?, options.csv).ok()?;
    let columns = places_of(alloc, &source.names(alloc).ok()?, options.choice.keys)?;
    let sort = sort_by(alloc, &columns, options.csv.delimiter)?;
    if options.csv.has_header {
        format!(in alloc; "(head -n 1 FILE; tail -n +2 FILE | {sort})").ok()
    } else {
        format!(in alloc; "{sort} FILE").ok()
    }
}
