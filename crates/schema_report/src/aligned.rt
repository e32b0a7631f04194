//! Writes tables of texts in aligned columns.

ghost use Rattle.std.specs.Prelude.{◌≡◌, ◌<◌, ◌+◌, ◌-◌, ◌++◌, ◌∷◌, ℕ, [], length, get_or};
ghost use Rattle.std.specs.Prelude.{replicate, IfOk, OnOk};
ghost use Rattle.schema_report.specs.Aligned.{aligned, aligned_cell, begins, glyphs, line_to};
ghost use Rattle.schema_report.specs.Aligned.{widest};

use diff_tables::table::Table;
use std::alloc::{AllocError, Global};

/// Returns whether a byte begins a character in UTF-8: it is not a continuation byte (128 to 191).
fn begins(byte: u8) -> bool
    ensures { result ≡ begins byte }
{
    byte < 128 || 191 < byte
}

/// Returns the number of characters in a text in UTF-8: the number of bytes that begin one.
fn glyphs(text: &[u8]) -> usize
    ensures { result ≡ glyphs text.now }
{
    text.iter().filter(|byte| begins(**byte)).count()
}

/// Returns the number of characters in the longest cell of a column, or 0 if there are no rows.
fn widest(table: &Table, column: usize) -> usize
    requires { column < table.now.width }
    ensures { result ≡ widest column table.now.rows (length table.now.rows) }
{
    let mut most = 0;
    for i in 0..table.count() {
        most = glyphs(table.cell(i, column)).max(most);
    }
    most
}

/// Returns for each column the number of characters in its longest cell.
fn widths_of(alloc: Global, table: &Table) -> Result<Vec<usize>, AllocError>
    ensures many { IfOk result (λ widths. length widths.items ≡ table.now.width) }
    ensures each { IfOk result
        (λ widths. (c : ℕ) → c < table.now.width → get_or widths.items c 0
        ≡ widest c table.now.rows (length table.now.rows)) }
{
    let mut widths = Vec::new(alloc);
    for column in 0..table.width() {
        widths.push(widest(table, column))?;
    }
    Ok(widths)
}

/// Appends `width - len` blanks, which fill a text of `len` characters up to `width` characters.
/// Appends nothing if `len` is greater than `width`.
fn push_blanks(out: &mut Vec<u8>, len: usize, width: usize) -> Result<(), AllocError>
    ensures { OnOk result (out.new.items ≡ out.old.items ++ replicate (width - len) 32) }
{
    for _ in 0..width.saturating_sub(len) {
        out.push(b' ')?;
    }
    Ok(())
}

/// Appends the cell in row `i` and column `column`. Except in the last column, appends blanks that
/// fill the cell up to `widths[column]` characters, and two more blanks.
fn push_cell(
    out: &mut Vec<u8>,
    table: &Table,
    widths: &[usize],
    i: usize,
    column: usize,
) -> Result<(), AllocError>
    requires row { i < length table.now.rows }
    requires column { column < table.now.width }
    requires many { length widths.now ≡ table.now.width }
    requires each { (c : ℕ) → c < table.now.width → get_or widths.now c 0
        ≡ widest c table.now.rows (length table.now.rows) }
    ensures { OnOk result
        (out.new.items ≡ out.old.items
        ++ aligned_cell table.now.rows table.now.width column
        (get_or (get_or table.now.rows i []) column [])) }
{
    let cell = table.cell(i, column);
    out.extend_from_slice(cell)?;
    if column + 1 < table.width() {
        push_blanks(out, glyphs(cell), widths[column])?;
        out.extend_from_slice(b"  ")?;
    }
    Ok(())
}

/// Appends row `i` as a line. `widths` has the number of characters in the longest cell of each
/// column.
fn push_line(out: &mut Vec<u8>, table: &Table, widths: &[usize], i: usize) -> Result<(), AllocError>
    requires row { i < length table.now.rows }
    requires many { length widths.now ≡ table.now.width }
    requires each { (c : ℕ) → c < table.now.width → get_or widths.now c 0
        ≡ widest c table.now.rows (length table.now.rows) }
    ensures { OnOk result
        (out.new.items ≡ out.old.items
        ++ line_to table.now.rows table.now.width (get_or table.now.rows i []) table.now.width
        ++ 10 ∷ []) }
{
    for column in 0..table.width() {
        push_cell(out, table, widths, i, column)?;
    }
    out.push(b'\n')?;
    Ok(())
}

/// Appends the rows of a table, a line for each. Each cell except the last of a row is filled with
/// blanks to the length of the longest cell in its column, and followed by two more blanks.
pub fn push_aligned(alloc: Global, out: &mut Vec<u8>, table: &Table) -> Result<(), AllocError>
    ensures { OnOk result
        (out.new.items ≡ out.old.items ++ aligned table.now.width table.now.rows) }
{
    let widths = widths_of(alloc, table)?;
    for i in 0..table.count() {
        push_line(out, table, &widths, i)?;
    }
    Ok(())
}
