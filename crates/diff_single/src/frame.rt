//! The data that all lines of a report share.

use diff_words::formats::Format;
use polars_arrays_bytes::binary::BinaryArray;

/// The data that all lines of a report share: names and options.
#[derive(Clone, Copy)]
pub struct Frame<'a> {
    /// The names of the columns that are compared.
    pub names: &'a BinaryArray<i64>,
    /// The key columns, as indices into `names`.
    pub keys: &'a [usize],
    /// The text of the cells that stand for no value, or `None` if no cell does.
    pub null: Option<&'a [u8]>,
    /// `true` if the lines have colours for a terminal.
    pub colored: bool,
    /// The form of the lines, text or JSON.
    pub format: Format,
    /// The name of the left file.
    pub left: &'a [u8],
    /// The name of the right file.
    pub right: &'a [u8],
}
