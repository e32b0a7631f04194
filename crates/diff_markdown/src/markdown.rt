//! Writes the whole report as Markdown.

ghost use Rattle.std.specs.Prelude.{◌≡◌, ◌++◌, All, Err, IsSome, OnOk, map};
ghost use Rattle.std.specs.Str.Lines.{lines};
ghost use Rattle.diff_lines.specs.Lines.{IsReport, line_of};
ghost use Rattle.diff_markdown.specs.Markdown.{counts_of, markdown_of, rows_of, table};

use crate::cells::push_name_cell;
use crate::line::push_line;
use diff_lines::error::LineError;
use diff_lines::lines::lines_of;
use json::Scratch;
use std::alloc::{AllocError, Global};
use std::str::from_utf8;

/// Reads `lines`, the JSON lines of a report. Appends the counts to `head` and the table rows to
/// `rows`. Fails with `NoReport` if one of `lines` is not a line of a report, and with `Memory` if
/// an allocation fails. After an error, a part may have been appended.
fn push_lines(
    alloc: Global,
    head: &mut Vec<u8>,
    rows: &mut Vec<u8>,
    lines: &[&str],
) -> Result<(), LineError>
    ensures each { OnOk result (All (λ l. IsSome (line_of l)) (map (λ l. l.now) lines.now)) }
    ensures head { OnOk result (head.new.items
        ≡ head.old.items ++ counts_of (map (λ l. l.now) lines.now)) }
    ensures rows { OnOk result (rows.new.items
        ≡ rows.old.items ++ rows_of (map (λ l. l.now) lines.now)) }
    ensures no_report { result ≡ Err LineError.NoReport
        → ¬ All (λ l. IsSome (line_of l)) (map (λ l. l.now) lines.now) }
{
    let mut scratch = Scratch::new(alloc);
    for line in lines {
        push_line(alloc, head, rows, line, &mut scratch)?;
    }
    Ok(())
}

/// Splits `text` into the JSON lines of a report. Appends the counts to `head` and the table rows
/// to `rows`. Fails with `NoReport` if a line of `text` is not a line of a report, and with
/// `Memory` if an allocation fails. After an error, a part may have been appended.
fn push_text(
    alloc: Global,
    head: &mut Vec<u8>,
    rows: &mut Vec<u8>,
    text: &str,
) -> Result<(), LineError>
    ensures each { OnOk result (All (λ l. IsSome (line_of l)) (lines text.now)) }
    ensures head { OnOk result (head.new.items ≡ head.old.items ++ counts_of (lines text.now)) }
    ensures rows { OnOk result (rows.new.items ≡ rows.old.items ++ rows_of (lines text.now)) }
    ensures no_report { result ≡ Err LineError.NoReport
        → ¬ All (λ l. IsSome (line_of l)) (lines text.now) }
{
    let lines = lines_of(alloc, text)?;
    push_lines(alloc, head, rows, &lines)?;
    Ok(())
}

/// Appends the head of the table, and then `rows`, the text of the rows. Appends nothing if `rows`
/// is empty.
fn push_table(out: &mut Vec<u8>, rows: &[u8]) -> Result<(), AllocError>
    ensures { OnOk result (out.new.items ≡ out.old.items ++ table rows.now) }
{
    if rows.is_empty() {
        return Ok(());
    }
    out.extend_from_slice(b"\n| | Key | Part | Left | Right |\n|---|---|---|---|---|\n")?;
    out.extend_from_slice(rows)?;
    Ok(())
}

/// Appends the report of two files as Markdown. `report` is the same report as JSON lines. `left`
/// and `right` are the names of the files.
///
/// Fails with `NoReport` if `report` is not UTF-8, or if one of its lines is not JSON, nests deeper
/// than 256 levels or has no known kind. Fails with `Memory` if an allocation fails. After an
/// error, `out` may have a part of the report.
#[tactic(auto, unfolding(crate::specs::Markdown::markdown_of))]
pub fn push_markdown(
    alloc: Global,
    out: &mut Vec<u8>,
    left: &str,
    right: &str,
    report: &[u8],
) -> Result<(), LineError>
    ensures report { OnOk result (IsReport report.now) }
    ensures text { OnOk result (out.new.items
        ≡ out.old.items ++ markdown_of left.now right.now report.now) }
    ensures no_report { result ≡ Err LineError.NoReport → ¬ IsReport report.now }
{
    let Ok(text) = from_utf8(report) else {
        return Err(LineError::NoReport);
    };
    let mut rows = Vec::new(alloc);
    push_name_cell(alloc, out, left)?;
    out.extend_from_slice(b" and ")?;
    push_name_cell(alloc, out, right)?;
    push_text(alloc, out, &mut rows, text)?;
    out.push(b'\n')?;
    push_table(out, &rows)?;
    Ok(())
}
