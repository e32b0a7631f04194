//! Reads a line of a report.

ghost use Rattle.std.specs.Prelude.{◌≡◌, Err, IfOk, None, Some};
ghost use Rattle.json.specs.Tree.{HasNumbers};
ghost use Rattle.json.specs.Value.{value_view};
ghost use Rattle.diff_lines.specs.Lines.{kind_named, line_of, line_value};

use crate::error::LineError;
use crate::parts::string_at;
use json::{Error, Reader, Scratch, Value};
use std::alloc::Global;

/// The greatest nesting depth of a line. It is greater than 128, the greatest depth of a document,
/// since a line can contain parts of documents.
const MOST_DEPTH: usize = 256;

/// The kind of a line of a report, given by its member `kind`.
#[derive(Clone, Copy)]
pub enum Kind {
    /// A line about a column that only one file has.
    Column,
    /// A line about a changed row.
    Changed,
    /// A line about a row that only the left file has.
    Removed,
    /// A line about a row that only the right file has.
    Added,
    /// The line with the counts.
    Counts,
}

/// Returns the kind that `word` names in JSON, or `None` if it names no kind.
#[tactic(auto, unfolding(crate::specs::Lines::kind_named))]
fn kind_named(word: &str) -> Option<Kind>
    ensures { result ≡ kind_named word.now }
{
    if word == "column" {
        return Some(Kind::Column);
    }
    if word == "changed" {
        return Some(Kind::Changed);
    }
    if word == "removed" {
        return Some(Kind::Removed);
    }
    if word == "added" {
        return Some(Kind::Added);
    }
    if word == "counts" {
        return Some(Kind::Counts);
    }
    None
}

/// Parses a line as a JSON value. Fails with `NoReport` if the line is not a single JSON value or
/// nests deeper than 256 levels, and with `Memory` if an allocation fails.
fn value_of<'a>(
    alloc: Global,
    line: &'a str,
    scratch: &'a mut Scratch,
) -> Result<Value<'a>, LineError>
    ensures ok { IfOk result (λ v. line_value line.now ≡ Some (value_view v)) }
    ensures numbers { IfOk result (λ v. HasNumbers (value_view v)) }
    ensures no_report { result ≡ Err LineError.NoReport → line_value line.now ≡ None }
{
    let mut reader = Reader::new(line, scratch)?;
    let value = match Value::read(alloc, &mut reader, MOST_DEPTH) {
        Ok(value) => value,
        Err(Error::OutOfMemory) => return Err(LineError::Memory),
        Err(Error::Invalid) => return Err(LineError::NoReport),
        Err(Error::TooLong) => unreachable!(),
        Err(Error::DuplicateKey) => unreachable!(),
    };
    if reader.next().is_some() {
        return Err(LineError::NoReport);
    }
    Ok(value)
}

/// Reads a line of a report, and returns its kind and its JSON value. `scratch` is the memory of
/// the JSON reader. It can be reused for the next line once the value is dropped.
///
/// Fails with `NoReport` if the line is not JSON, nests deeper than 256 levels or has no known
/// `kind`, and with `Memory` if an allocation fails.
#[tactic(auto, using(crate::specs::LineLaws::line_known, crate::specs::LineLaws::line_unknown, crate::specs::LineLaws::line_broken))]
pub fn read_line<'a>(
    alloc: Global,
    line: &'a str,
    scratch: &'a mut Scratch,
) -> Result<(Kind, Value<'a>), LineError>
    ensures ok { IfOk result (λ told. line_of line.now ≡ Some (told.0, value_view told.1)) }
    ensures numbers { IfOk result (λ told. HasNumbers (value_view told.1)) }
    ensures no_report { result ≡ Err LineError.NoReport → line_of line.now ≡ None }
{
    let value = value_of(alloc, line, scratch)?;
    let Some(kind) = kind_named(string_at(&value, "kind")) else {
        return Err(LineError::NoReport);
    };
    Ok((kind, value))
}
