//! The types of rows that a line can name.

ghost use Rattle.std.specs.Prelude.{◌≡◌};
ghost use Rattle.polars_tables_rows.specs.Types.{row_type_of};

use crate::tables::find;

/// A type of rows in a line: signed or unsigned numbers of 8 to 64 bits, or truth values.
#[derive(Clone, Copy, Debug, PartialEq, Eq)]
pub enum RowType {
    I8,
    I16,
    I32,
    I64,
    U8,
    U16,
    U32,
    U64,
    Boolean,
}

/// The types with their names in a line.
const ROW_TYPES: [(&str, RowType); 9] = [
    ("i8", RowType::I8),
    ("i16", RowType::I16),
    ("i32", RowType::I32),
    ("i64", RowType::I64),
    ("u8", RowType::U8),
    ("u16", RowType::U16),
    ("u32", RowType::U32),
    ("u64", RowType::U64),
    ("bool", RowType::Boolean),
];

impl RowType {
    /// Returns the type that is called `name` in a line, or `None` if there is no such type.
    pub fn from_name(name: &str) -> Option<RowType>
        ensures { result ≡ row_type_of name.now }
    {
        find(&ROW_TYPES, name)
    }
}
