//! Writes the report of a comparison as a table in aligned columns.

ghost use Rattle.std.specs.Prelude.{◌≡◌, ◌++◌, All, Err, IsSome, OnOk, map};
ghost use Rattle.std.specs.Str.Lines.{lines};
ghost use Rattle.diff_aligned.specs.Aligned.{aligned_of, given_by, head_by, row_lines, rows_by};
ghost use Rattle.diff_aligned.specs.Aligned.{tail_by};
ghost use Rattle.diff_aligned.specs.Paragraphs.{texts_bytes};
ghost use Rattle.diff_aligned.specs.Pieces.{lines_bytes};
ghost use Rattle.diff_aligned.specs.Rows.{rows_view};
ghost use Rattle.diff_lines.specs.Lines.{IsReport, line_of};

use crate::line::push_line;
use crate::pieces::push_row;
use crate::rooms::rooms_for;
use crate::rows::Row;
use diff_lines::error::LineError;
use diff_lines::lines::lines_of;
use json::Scratch;
use std::alloc::{AllocError, Global};
use std::str::from_utf8;

/// The width and colours of the terminal, and the names of the two files.
#[derive(Clone, Copy, Debug)]
pub struct Sheet<'a> {
    /// The width of the terminal in columns. If it is 40 or more, no line of the report is wider.
    pub width: usize,
    /// `true` if the report has colours.
    pub colored: bool,
    /// The name of the left file, as shown in the report.
    pub left: &'a str,
    /// The name of the right file, as shown in the report.
    pub right: &'a str,
}

/// Reads `lines`, the JSON lines of a report. Appends the texts before the table to `head`, the
/// rows of the table to `rows`, and the texts after the table to `tail`. Fails with `NoReport` if
/// one of `lines` is not a line of a report, and with `Memory` if an allocation fails. After an
/// error, a part may have been appended.
fn push_lines(
    alloc: Global,
    head: &mut Vec<u8>,
    rows: &mut Vec<Row>,
    tail: &mut Vec<u8>,
    sheet: &Sheet<'_>,
    lines: &[&str],
) -> Result<(), LineError>
    ensures each { OnOk result (All (λ l. IsSome (line_of l)) (map (λ l. l.now) lines.now)) }
    ensures head { OnOk result (head.new.items ≡ head.old.items
        ++ texts_bytes (given_by (head_by sheet.now) (map (λ l. l.now) lines.now))) }
    ensures rows { OnOk result (rows_view rows.new.items ≡ rows_view rows.old.items
        ++ given_by (rows_by sheet.now) (map (λ l. l.now) lines.now)) }
    ensures tail { OnOk result (tail.new.items ≡ tail.old.items
        ++ texts_bytes (given_by (tail_by sheet.now) (map (λ l. l.now) lines.now))) }
    ensures no_report { result ≡ Err LineError.NoReport
        → ¬ All (λ l. IsSome (line_of l)) (map (λ l. l.now) lines.now) }
{
    let mut scratch = Scratch::new(alloc);
    for line in lines {
        push_line(alloc, head, rows, tail, sheet, line, &mut scratch)?;
    }
    Ok(())
}

/// Splits `text` into the JSON lines of a report. Appends the texts before the table to `head`, the
/// rows of the table to `rows`, and the texts after the table to `tail`. Fails with `NoReport` if a
/// line of `text` is not a line of a report, and with `Memory` if an allocation fails. After an
/// error, a part may have been appended.
fn push_text(
    alloc: Global,
    head: &mut Vec<u8>,
    rows: &mut Vec<Row>,
    tail: &mut Vec<u8>,
    sheet: &Sheet<'_>,
    text: &str,
) -> Result<(), LineError>
    ensures each { OnOk result (All (λ l. IsSome (line_of l)) (lines text.now)) }
    ensures head { OnOk result (head.new.items
        ≡ head.old.items ++ texts_bytes (given_by (head_by sheet.now) (lines text.now))) }
    ensures rows { OnOk result (rows_view rows.new.items
        ≡ rows_view rows.old.items ++ given_by (rows_by sheet.now) (lines text.now)) }
    ensures tail { OnOk result (tail.new.items
        ≡ tail.old.items ++ texts_bytes (given_by (tail_by sheet.now) (lines text.now))) }
    ensures no_report { result ≡ Err LineError.NoReport
        → ¬ All (λ l. IsSome (line_of l)) (lines text.now) }
{
    let lines = lines_of(alloc, text)?;
    push_lines(alloc, head, rows, tail, sheet, &lines)?;
    Ok(())
}

/// Appends one line of text for each of `rows`, in aligned columns. If the width of the sheet is 40
/// or more, no line is wider.
#[tactic(auto, unfolding(crate::specs::Aligned::row_lines))]
fn push_rows(
    alloc: Global,
    out: &mut Vec<u8>,
    sheet: &Sheet<'_>,
    rows: &[Row],
) -> Result<(), AllocError>
    ensures { OnOk result (out.new.items ≡ out.old.items
        ++ lines_bytes sheet.now.colored (row_lines sheet.now.width (rows_view rows.now))) }
{
    let rooms = rooms_for(sheet.width, rows);
    for row in rows {
        push_row(alloc, out, sheet.colored, &rooms, row)?;
    }
    Ok(())
}

/// Appends a report as a table in aligned columns. `report` is the same report as JSON lines.
///
/// Fails with `NoReport` if `report` is not UTF-8, or if one of its lines is not JSON, nests deeper
/// than 256 levels or has no known kind. Fails with `Memory` if an allocation fails. After an
/// error, `out` may have a part of the report.
pub fn push_aligned(
    alloc: Global,
    out: &mut Vec<u8>,
    sheet: &Sheet<'_>,
    report: &[u8],
) -> Result<(), LineError>
    ensures report { OnOk result (IsReport report.now) }
    ensures text { OnOk result (out.new.items ≡ out.old.items ++ aligned_of sheet.now report.now) }
    ensures no_report { result ≡ Err LineError.NoReport → ¬ IsReport report.now }
{
    let Ok(text) = from_utf8(report) else {
        return Err(LineError::NoReport);
    };
    let mut rows = Vec::new(alloc);
    let mut tail = Vec::new(alloc);
    push_text(alloc, out, &mut rows, &mut tail, sheet, text)?;
    push_rows(alloc, out, sheet, &rows)?;
    out.extend_from_slice(&tail)?;
    Ok(())
}
