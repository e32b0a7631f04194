//! Converts a JSON line of a report to Markdown.

ghost use Rattle.std.specs.Prelude.{◌≡◌, ◌++◌, Err, IsSome, None, OnOk};
ghost use Rattle.json.specs.Tree.{HasNumbers};
ghost use Rattle.json.specs.Value.{value_view};
ghost use Rattle.diff_lines.specs.Lines.{line_of};
ghost use Rattle.diff_markdown.specs.Markdown.{counts_by, counts_in, rows_by, rows_in};

use crate::counts::push_counts;
use crate::rows::{push_added, push_changed, push_column, push_removed};
use diff_lines::error::LineError;
use diff_lines::line::{Kind, read_line};
use json::{Scratch, Value};
use std::alloc::{AllocError, Global};

/// Appends the Markdown for `line`, a JSON line of kind `kind` in a report. The counts are appended
/// to `head`. Any other line becomes table rows, which are appended to `rows`.
fn push_by_kind(
    alloc: Global,
    head: &mut Vec<u8>,
    rows: &mut Vec<u8>,
    kind: Kind,
    line: &Value<'_>,
) -> Result<(), AllocError>
    requires { HasNumbers (value_view line.now) }
    ensures head { OnOk result (head.new.items
        ≡ head.old.items ++ counts_by kind (value_view line.now)) }
    ensures rows { OnOk result (rows.new.items
        ≡ rows.old.items ++ rows_by kind (value_view line.now)) }
{
    match kind {
        Kind::Column => push_column(alloc, rows, line),
        Kind::Changed => push_changed(alloc, rows, line),
        Kind::Removed => push_removed(alloc, rows, line),
        Kind::Added => push_added(alloc, rows, line),
        Kind::Counts => push_counts(alloc, head, line),
    }
}

/// Reads `line`, a JSON line of a report, and appends its Markdown: counts to `head`, table rows to
/// `rows`. `scratch` is the memory of the JSON reader, which is reused for each line.
///
/// Fails with `NoReport` if `line` is not a line of a report, and with `Memory` if an allocation
/// fails. After an error, a part of the Markdown may have been appended.
pub(crate) fn push_line(
    alloc: Global,
    head: &mut Vec<u8>,
    rows: &mut Vec<u8>,
    line: &str,
    scratch: &mut Scratch,
) -> Result<(), LineError>
    ensures ok { OnOk result (IsSome (line_of line.now)) }
    ensures head { OnOk result (head.new.items ≡ head.old.items ++ counts_in (line_of line.now)) }
    ensures rows { OnOk result (rows.new.items ≡ rows.old.items ++ rows_in (line_of line.now)) }
    ensures no_report { result ≡ Err LineError.NoReport → line_of line.now ≡ None }
{
    let (kind, value) = read_line(alloc, line, scratch)?;
    push_by_kind(alloc, head, rows, kind, &value)?;
    Ok(())
}
