//! Separates the values of a column from its null and missing cells.

ghost use Rattle.std.specs.Option.{option_copied};
ghost use Rattle.std.specs.Prelude.{◌≡◌, ◌<◌, ◌+◌, ◌++◌, ◌∷◌, [], ℕ, List, IfOk, OnOk, MatchResult};
ghost use Rattle.polars_arrays_bits.specs.Errors.{IsMemory};
ghost use Rattle.schema_columns.specs.Present.{Gathers, IsPresentOf, cells_of, is_null};

use diff_tables::strings::Strings;
use diff_tables::table::Table;
use polars_arrays_bits::error::ComputeError;
use polars_arrays_bytes::binary::BinaryArray;
use std::alloc::{AllocError, Global};

/// The values of a column, and the numbers of its null and missing cells.
#[derive(Drop)]
pub struct Present {
    /// The values: the cells that are neither null nor missing, in the order of their rows.
    pub cells: BinaryArray<i64>,
    /// The number of null cells.
    pub nulls: usize,
    /// The number of missing cells, which are empty but not null.
    pub missing: usize,
}

/// The values found so far, and the numbers of null and missing cells.
#[derive(Drop)]
struct Gathered {
    cells: Strings,
    nulls: usize,
    missing: usize,
}

/// Returns `n + 1`, or an error if this overflows.
fn one_more(n: usize) -> Result<usize, AllocError>
    ensures { IfOk result (λ m. m ≡ n + 1) }
{
    // No memory holds this many cells.
    n.checked_add(1).ok_or(AllocError)
}

/// Returns whether a cell is null: it equals `null`. Returns `false` if `null` is `None`.
fn is_null(null: Option<&[u8]>, cell: &[u8]) -> bool
    ensures { result ≡ is_null (option_copied null.entry) cell.now }
{
    match null {
        Some(word) => word == cell,
        None => false,
    }
}

impl Gathered {
    /// Counts `cell` as null if it equals `null`, or else as missing if it is empty. Appends any
    /// other cell to the values.
    fn add(&mut self, null: Option<&[u8]>, cell: &[u8]) -> Result<(), AllocError>
        ensures { OnOk result
            ((all : List (List ℕ)) → Gathers (option_copied null.entry) all self.old
            → Gathers (option_copied null.entry) (all ++ cell.now ∷ []) self.new) }
    {
        if is_null(null, cell) {
            self.nulls = one_more(self.nulls)?;
            return Ok(());
        }
        if cell.is_empty() {
            self.missing = one_more(self.missing)?;
            return Ok(());
        }
        self.cells.push(cell)?;
        Ok(())
    }
}

/// Returns the values of column `column`, counted from 0, and the numbers of its null and missing
/// cells. A cell that equals `null` is null, and any other empty cell is missing. The only error is
/// `Memory`.
pub fn present_cells(
    alloc: Global,
    table: &Table,
    column: usize,
    null: Option<&[u8]>,
) -> Result<Present, ComputeError>
    requires { column < table.now.width }
    ensures { MatchResult result
        (IsPresentOf (option_copied null.entry) (cells_of column table.now.rows)) IsMemory }
{
    let mut gathered = Gathered {
        cells: Strings::new(alloc)?,
        nulls: 0,
        missing: 0,
    };
    for i in 0..table.count() {
        gathered.add(null, table.cell(i, column))?;
    }
    let Gathered {
        cells,
        nulls,
        missing,
    } = gathered;
    let cells = cells.into_array(alloc)?;
    Ok(Present {
        cells,
        nulls,
        missing,
    })
}
