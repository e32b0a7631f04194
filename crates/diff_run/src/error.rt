//! The errors of comparing two CSV inputs.

ghost use Rattle.std.specs.Prelude.{Some};
ghost use Rattle.diff_run.specs.Chosen.{list_text};
ghost use Rattle.diff_run.specs.Faults.{IsMemory};

use diff_columns::error::{ColumnError, Side};
use diff_csv::error::CsvError;
use polars_arrays_bits::error::ComputeError;
use std::alloc::AllocError;
use std::{fmt, io};
use thiserror::Error;

/// A list of column names in the options.
#[derive(Clone, Copy, Debug)]
pub enum NameList {
    /// The columns to compare (`Choice::only`).
    Only,
    /// The columns that are not compared (`Choice::ignored`).
    Ignored,
    /// The columns that are compared as texts (`Options::numbers`).
    Texts,
    /// The columns that have a tolerance (`Options::tolerances`).
    Tolerances,
}

impl fmt::Display for NameList {
    ghost output = { λ list. Some (list_text list) };

    fn fmt<W: fmt::Write>(&self, f: &mut fmt::Formatter<W>) -> fmt::Result {
        match self {
            NameList::Only => f.write_str("columns to compare"),
            NameList::Ignored => f.write_str("columns to ignore"),
            NameList::Texts => f.write_str("columns to compare as texts"),
            NameList::Tolerances => f.write_str("columns with a tolerance"),
        }
    }
}

/// An error in the choice of columns.
#[derive(Clone, Copy, Debug, Error)]
pub enum ChoiceError {
    /// The options name a column that neither table has. `name` is the index of this name in
    /// `list`.
    #[error("neither table has a column for name {name} of the {list}")]
    NoColumn { list: NameList, name: usize },
    /// Nothing remains to compare or report: no column, or only key columns because the option
    /// `common` leaves out the columns that only one input has.
    #[error("no column is left to compare")]
    NothingLeft,
}

/// An error of comparing two CSV inputs. Something may have been written only if the error is
/// `Write`.
#[derive(Debug, Drop, Error)]
pub enum RunError {
    /// An allocation failed, except while an input was read (see `Csv`).
    #[error("out of memory")]
    Memory,
    /// A table has more than 2^32 rows.
    #[error("a table has more than 4,294,967,296 rows")]
    TooManyRows,
    /// The input on this side can't be read as CSV. `cause` has the reason, which is
    /// `CsvError::Memory` if an allocation failed while the input was read.
    #[error("{cause}")]
    Csv {
        side: Side,
        cause: CsvError,
    },
    /// Two rows of the table on this side have the same key, but keys must be unique. `first` and
    /// `again` are the lines at which the rows begin.
    #[error("the rows at lines {first} and {again} have the same key")]
    KeyTwice {
        side: Side,
        first: u64,
        again: u64,
    },
    /// A number that is compared by value has an exponent of more than 30 digits, leading zeros not
    /// counted. `line` is the line at which its row begins, and `name` is the name of its column.
    #[error("the number at line {line} has an exponent of more than 30 digits")]
    WideExponent {
        side: Side,
        line: u64,
        name: Vec<u8>,
    },
    /// The columns of the two inputs can't be matched by name.
    #[error("{cause}")]
    Columns {
        cause: ColumnError,
    },
    /// The options name a column that neither input has, or leave no column to compare.
    #[error("{cause}")]
    Choice {
        cause: ChoiceError,
    },
    /// A write failed. The beginning of the report may have been written.
    #[error("{cause}")]
    Write {
        cause: io::Error,
    },
}

impl From<AllocError> for RunError {
    ghost from_gives = { λ _ r. IsMemory r };

    fn from(_failed: AllocError) -> RunError {
        RunError::Memory
    }
}

impl From<ComputeError> for RunError {
    ghost from_gives = { λ _ r. IsMemory r };

    fn from(_failed: ComputeError) -> RunError {
        RunError::Memory
    }
}
