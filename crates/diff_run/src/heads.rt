//! Reads and matches the columns of two inputs.

ghost use Rattle.std.specs.Prelude.{◌≡◌, ℕ, List, IfOk, MatchResult};
ghost use Rattle.polars_arrays_bytes.specs.OffsetStrings.{offset_strings};
ghost use Rattle.diff_columns.specs.Layout.{IsLayout};
ghost use Rattle.diff_csv.specs.Reading.{IsOpen};
ghost use Rattle.diff_run.specs.Faults.{IsRunFault};
ghost use Rattle.diff_run.specs.Heads.{AreChosen, AreHeadsOf, fault_of};

use crate::chosen::test_heads;
use crate::error::RunError;
use crate::options::Options;
use diff_columns::error::ColumnError;
use diff_columns::layout::{Layout, match_columns};
use diff_csv::source::Source;
use polars_arrays_bytes::binary::BinaryArray;
use std::alloc::Global;
use std::io::Read;

/// The names of the columns of two inputs, and how the columns are matched.
pub struct Heads {
    /// The names of all columns of the left input.
    pub left_names: BinaryArray<i64>,
    /// The names of all columns of the right input.
    pub right_names: BinaryArray<i64>,
    /// The columns that are compared, as indices into `left_names` and `right_names`, and those
    /// that only one input has.
    pub layout: Layout,
}

// Written by hand, so that dropping heads is a single call in the compiled code.
impl Drop for Heads {
    fn drop(self) {
        let Heads {
            left_names,
            right_names,
            layout,
        } = self;
        drop(left_names);
        drop(right_names);
        drop(layout);
    }
}

/// Converts an error of matching columns to an error of the comparison.
fn fault_of(error: ColumnError) -> RunError
    ensures { result ≡ fault_of error }
{
    match error {
        ColumnError::Memory => RunError::Memory,
        cause => RunError::Columns { cause },
    }
}

/// Reads the names of the columns of two inputs, and matches the columns by name. Fails with
/// `Columns` if an input has a name twice or lacks a key column, and with `Memory` if an allocation
/// fails.
fn matched<L: Read + Drop, R: Read + Drop>(
    alloc: Global,
    left: &Source<L>,
    right: &Source<R>,
    options: &Options<'_>,
) -> Result<Heads, RunError>
    ensures layout { IfOk result
        (λ h. IsLayout (offset_strings (λ x. x) h.left_names)
        (offset_strings (λ x. x) h.right_names) options.now.choice h.layout) }
    ensures texts { MatchResult result
        (λ h. (left_text right_text : List ℕ)
        → IsOpen L.remaining options.now.csv left_text left.now
        → IsOpen R.remaining options.now.csv right_text right.now
        → AreHeadsOf options.now left_text right_text h)
        (λ error. (left_text right_text : List ℕ)
        → IsOpen L.remaining options.now.csv left_text left.now
        → IsOpen R.remaining options.now.csv right_text right.now
        → IsRunFault options.now left_text right_text error) }
{
    let left_names = left.names(alloc)?;
    let Ok(right_names) = right.names(alloc) else {
        drop(left_names);
        return Err(RunError::Memory);
    };
    match match_columns(alloc, &left_names, &right_names, &options.choice) {
        Ok(layout) => Ok(Heads {
            left_names,
            right_names,
            layout,
        }),
        Err(error) => {
            drop(left_names);
            drop(right_names);
            Err(fault_of(error))
        }
    }
}

/// Reads the names of the columns of two inputs, and matches the columns by name.
///
/// Fails with `Columns` if an input has a name twice or lacks a key column, with `Choice` if an
/// option besides the keys names a column that neither input has, or if nothing is left to compare,
/// and with `Memory` if an allocation fails.
pub fn heads_of<L: Read + Drop, R: Read + Drop>(
    alloc: Global,
    left: &Source<L>,
    right: &Source<R>,
    options: &Options<'_>,
) -> Result<Heads, RunError>
    ensures layout { IfOk result
        (λ h. IsLayout (offset_strings (λ x. x) h.left_names)
        (offset_strings (λ x. x) h.right_names) options.now.choice h.layout) }
    ensures chosen { IfOk result (AreChosen options.now) }
    ensures texts { MatchResult result
        (λ h. (left_text right_text : List ℕ)
        → IsOpen L.remaining options.now.csv left_text left.now
        → IsOpen R.remaining options.now.csv right_text right.now
        → AreHeadsOf options.now left_text right_text h)
        (λ error. (left_text right_text : List ℕ)
        → IsOpen L.remaining options.now.csv left_text left.now
        → IsOpen R.remaining options.now.csv right_text right.now
        → IsRunFault options.now left_text right_text error) }
{
    let heads = matched(alloc, left, right, options)?;
    test_heads(&heads, options)?;
    Ok(heads)
}
