//! The errors of matching columns by name.

ghost use Rattle.std.specs.Prelude.{Some};
ghost use Rattle.diff_columns.specs.Errors.{word_of};

use std::fmt;
use thiserror::Error;

/// One of two tables.
#[derive(Clone, Copy, Debug)]
pub enum Side {
    Left,
    Right,
}

impl fmt::Display for Side {
    ghost output = { λ side. Some (word_of side) };

    fn fmt<W: fmt::Write>(&self, f: &mut fmt::Formatter<W>) -> fmt::Result {
        match self {
            Side::Left => f.write_str("left"),
            Side::Right => f.write_str("right"),
        }
    }
}

/// An error of matching the columns of two tables by name.
#[derive(Clone, Copy, Debug, Error)]
pub enum ColumnError {
    /// An allocation failed.
    #[error("out of memory")]
    Memory,
    /// Two columns of the table `side` have the same name. `column` is the index of the later one.
    #[error("column {column} of the {side} table has the name of an earlier one")]
    NameTwice { side: Side, column: usize },
    /// The table `side` has no column with the name of a key. `key` is the index of the key in
    /// `Choice::keys`.
    #[error("no column of the {side} table has the name of key {key}")]
    NoKey { side: Side, key: usize },
}
