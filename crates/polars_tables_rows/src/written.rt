//! Formats the rows of an array as text.

ghost use Rattle.std.specs.Prelude.{◌≡◌, ◌++◌, ◌<◌, length, IfOk, OnOk};
ghost use Rattle.std.specs.String.{string_bytes};
ghost use Rattle.polars_arrays_flat.specs.StoredRows.{row, rows_under};
ghost use Rattle.polars_tables_rows.specs.Written.{row_word, row_words};

use crate::row_array::RowArray;
use std::alloc::{AllocError, Global};

/// Appends row `i` to a text: its value, or `null`. The only error is a failed allocation.
fn push_row<A: RowArray>(text: &mut String, array: &A, i: usize) -> Result<(), AllocError>
    requires { i < length (A.slots array.now) }
    ensures { OnOk result
        (string_bytes text.new ≡ string_bytes text.old
        ++ row_word (row (rows_under (A.mask array.now) (A.slots array.now)) i)) }
{
    match array.value(i) {
        Some(value) => write!(text, "{value}"),
        None => text.push_str("null"),
    }
}

/// The initial capacity of a text of rows in bytes, so that a short text never grows.
const ROOM: usize = 64;

/// Formats the rows of an array as text: values and `null`, separated by single spaces. The only
/// error is a failed allocation.
pub fn write_rows<A: RowArray>(alloc: Global, array: &A) -> Result<String, AllocError>
    ensures { IfOk result
        (λ text. string_bytes text
        ≡ row_words (rows_under (A.mask array.now) (A.slots array.now))) }
{
    let mut text = String::with_capacity(alloc, ROOM)?;
    for i in 0..array.count() {
        if i > 0 {
            text.push_str(" ")?;
        }
        push_row(&mut text, array, i)?;
    }
    Ok(text)
}
