//! Converts a JSON line of a report to the texts and rows of the aligned report.

ghost use Rattle.std.specs.Prelude.{◌≡◌, ◌++◌, Err, IsSome, None, OnOk};
ghost use Rattle.json.specs.Tree.{HasNumbers};
ghost use Rattle.json.specs.Value.{value_view};
ghost use Rattle.diff_aligned.specs.Aligned.{given, head_by, rows_by, tail_by};
ghost use Rattle.diff_aligned.specs.Paragraphs.{texts_bytes};
ghost use Rattle.diff_aligned.specs.Rows.{rows_view};
ghost use Rattle.diff_lines.specs.Lines.{line_of};

use crate::aligned::Sheet;
use crate::counts::{push_column, push_counts};
use crate::rows::{Mark, Row, push_changed, push_lone};
use diff_lines::error::LineError;
use diff_lines::line::{Kind, read_line};
use json::{Scratch, Value};
use std::alloc::{AllocError, Global};

/// Appends the output for `line`, a JSON line of kind `kind` in a report. The message about a
/// column is appended to `head`, the table rows of a changed, removed or added row to `rows`, and
/// the counts to `tail`.
fn push_by_kind(
    alloc: Global,
    head: &mut Vec<u8>,
    rows: &mut Vec<Row>,
    tail: &mut Vec<u8>,
    sheet: &Sheet<'_>,
    kind: Kind,
    line: &Value<'_>,
) -> Result<(), AllocError>
    requires { HasNumbers (value_view line.now) }
    ensures head { OnOk result (head.new.items
        ≡ head.old.items ++ texts_bytes (head_by sheet.now kind (value_view line.now))) }
    ensures rows { OnOk result (rows_view rows.new.items
        ≡ rows_view rows.old.items ++ rows_by sheet.now kind (value_view line.now)) }
    ensures tail { OnOk result (tail.new.items
        ≡ tail.old.items ++ texts_bytes (tail_by sheet.now kind (value_view line.now))) }
{
    match kind {
        Kind::Column => push_column(alloc, head, sheet.width, sheet.left, sheet.right, line),
        Kind::Changed => push_changed(alloc, rows, line),
        Kind::Removed => push_lone(alloc, rows, Mark::Removed, sheet.left, line),
        Kind::Added => push_lone(alloc, rows, Mark::Added, sheet.right, line),
        Kind::Counts => push_counts(alloc, tail, sheet.width, line),
    }
}

/// Reads `line`, a JSON line of a report, and appends its output: texts before the table to `head`,
/// rows of the table to `rows`, texts after the table to `tail`. `scratch` is the memory of the
/// JSON reader, which is reused for each line.
///
/// Fails with `NoReport` if `line` is not a line of a report, and with `Memory` if an allocation
/// fails. After an error, a part of the output may have been appended.
pub(crate) fn push_line(
    alloc: Global,
    head: &mut Vec<u8>,
    rows: &mut Vec<Row>,
    tail: &mut Vec<u8>,
    sheet: &Sheet<'_>,
    line: &str,
    scratch: &mut Scratch,
) -> Result<(), LineError>
    ensures ok { OnOk result (IsSome (line_of line.now)) }
    ensures head { OnOk result (head.new.items
        ≡ head.old.items ++ texts_bytes (given (head_by sheet.now) (line_of line.now))) }
    ensures rows { OnOk result (rows_view rows.new.items
        ≡ rows_view rows.old.items ++ given (rows_by sheet.now) (line_of line.now)) }
    ensures tail { OnOk result (tail.new.items
        ≡ tail.old.items ++ texts_bytes (given (tail_by sheet.now) (line_of line.now))) }
    ensures no_report { result ≡ Err LineError.NoReport → line_of line.now ≡ None }
{
    let (kind, value) = read_line(alloc, line, scratch)?;
    push_by_kind(alloc, head, rows, tail, sheet, kind, &value)?;
    Ok(())
}
