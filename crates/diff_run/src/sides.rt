//! Makes the two sides of a report from two inputs.

ghost use Rattle.std.specs.Option.{option_map};
ghost use Rattle.std.specs.Prelude.{◌≡◌, ℕ, List, IfOk, MatchResult};
ghost use Rattle.polars_arrays_bytes.specs.OffsetStrings.{offset_strings};
ghost use Rattle.diff_columns.specs.Layout.{IsLayout};
ghost use Rattle.diff_csv.specs.Reading.{IsOpen};
ghost use Rattle.diff_report.specs.Sides.{AreSides};
ghost use Rattle.diff_run.specs.Faults.{IsMemory, IsRunFault};
ghost use Rattle.diff_run.specs.Heads.{AreChosen, AreHeadsOf, IsFrameOf};
ghost use Rattle.diff_run.specs.Run.{AreSidesOf};

use crate::comparables::compared_by;
use crate::error::RunError;
use crate::heads::Heads;
use crate::inputs::{Both, read_both};
use crate::names::names_at;
use crate::options::Options;
use diff_csv::source::Source;
use diff_report::sides::{Side, Sides};
use polars_arrays_bytes::binary::BinaryArray;
use std::alloc::{AllocError, Global};
use std::io::Read;

/// The names of two inputs for the report.
#[derive(Clone, Copy)]
pub struct Files<'a> {
    pub left: &'a [u8],
    pub right: &'a [u8],
}

/// The data of a report besides the rows: the names of the inputs, the names of the compared
/// columns, the key columns as indices into these names, and the text of a cell that stands for no
/// value.
#[derive(Drop)]
pub struct Frame {
    /// The name of the left input.
    pub left: Vec<u8>,
    /// The name of the right input.
    pub right: Vec<u8>,
    /// The names of the columns that are compared.
    pub names: BinaryArray<i64>,
    /// The key columns, as indices into `names`.
    pub keys: Vec<usize>,
    /// The text of a cell that stands for no value. `None`: no cell does.
    pub null: Option<Vec<u8>>,
}

/// Returns a copy of a text, or `None` for `None`.
fn copied(alloc: Global, text: Option<&[u8]>) -> Result<Option<Vec<u8>>, AllocError>
    ensures { IfOk result
        (λ copy. option_map (λ v. v.items) copy ≡ option_map (λ v. v.now) text.entry) }
{
    match text {
        Some(bytes) => Ok(Some(Vec::from_slice(alloc, bytes)?)),
        None => Ok(None),
    }
}

/// Returns the data of a report besides the rows, as copies from `heads`, `files` and `options`.
/// The only error is `Memory`.
pub fn frame_of(
    alloc: Global,
    heads: &Heads,
    files: Files<'_>,
    options: &Options<'_>,
) -> Result<Frame, RunError>
    requires { IsLayout (offset_strings (λ x. x) heads.now.left_names)
        (offset_strings (λ x. x) heads.now.right_names) options.now.choice heads.now.layout }
    ensures { MatchResult result
        (IsFrameOf options.now heads.now files.entry.left.now files.entry.right.now) IsMemory }
{
    let left = Vec::from_slice(alloc, files.left)?;
    let right = Vec::from_slice(alloc, files.right)?;
    let keys = Vec::from_slice(alloc, &heads.layout.keys)?;
    let null = copied(alloc, options.null)?;
    let names = names_at(alloc, &heads.left_names, &heads.layout.left)?;
    Ok(Frame {
        left,
        right,
        names,
        keys,
        null,
    })
}

/// Reads the rows of two inputs, and returns the two sides of their report. `heads` has the matched
/// columns of the inputs. If the options have numbers or tolerances, the result also has the tables
/// to compare in place of the inputs (see `compared_by`). Fails with `Csv` if an input can't be
/// read, with `WideExponent` or `TooManyRows` as `compared_by` does, and with `Memory` if another
/// allocation fails.
pub(crate) fn sides_of<L: Read + Drop, R: Read + Drop>(
    alloc: Global,
    left: Source<L>,
    right: Source<R>,
    heads: &Heads,
    files: Files<'_>,
    options: &Options<'_>,
) -> Result<Sides, RunError>
    requires layout { IsLayout (offset_strings (λ x. x) heads.now.left_names)
        (offset_strings (λ x. x) heads.now.right_names) options.now.choice heads.now.layout }
    requires chosen { AreChosen options.now heads.now }
    ensures sides { IfOk result AreSides }
    ensures texts { MatchResult result
        (λ sides. (left_text right_text : List ℕ)
        → IsOpen L.remaining options.now.csv left_text left
        → IsOpen R.remaining options.now.csv right_text right
        → AreHeadsOf options.now left_text right_text heads.now
        → AreSidesOf options.now left_text right_text files.entry.left.now files.entry.right.now
        heads.now.layout sides)
        (λ error. (left_text right_text : List ℕ)
        → IsOpen L.remaining options.now.csv left_text left
        → IsOpen R.remaining options.now.csv right_text right
        → AreHeadsOf options.now left_text right_text heads.now
        → IsRunFault options.now left_text right_text error) }
{
    let frame = frame_of(alloc, heads, files, options)?;
    let both = read_both(alloc, left, right, &heads.layout, options)?;
    let comparables = compared_by(alloc, &frame.names, &frame.keys, &both, options)?;
    Ok(Sides {
        left: Side {
            name: frame.left,
            table: both.left.table,
            lines: both.left.lines,
            numbers: both.left.numbers,
        },
        right: Side {
            name: frame.right,
            table: both.right.table,
            lines: both.right.lines,
            numbers: both.right.numbers,
        },
        comparables,
        names: frame.names,
        keys: frame.keys,
        null: frame.null,
        colored: options.colored,
    })
}
