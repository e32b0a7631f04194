//! Tables of cells.

ghost use Rattle.std.specs.Prelude.{◌≡◌, ◌<◌, ◌*◌, ℕ, List, [], length, get_or, IfOk, MatchResult};
ghost use Rattle.polars_arrays_bits.specs.Errors.{IsMemory};
ghost use Rattle.diff_tables.specs.Alike.{AreSameRows, ListsAllBut};
ghost use Rattle.diff_tables.specs.Comparison.{ArePairs};
ghost use Rattle.diff_tables.specs.Strings.{AreStrings};
ghost use Rattle.diff_tables.specs.Tables.{Lends, cut_rows};

use crate::cells::Cells;
use crate::strings::Strings;
use diff_pairs::rows::LentRows;
use polars_arrays_bits::error::ComputeError;
use std::alloc::{AllocError, Global};
use std::marker::Model;

/// A table of `count` rows with `width` cells each. The cells are byte strings.
#[derive(Drop)]
pub struct Table {
    width: usize,
    count: usize,
    // The cells of all rows, row by row.
    cells: Cells,
}

impl Model for Table {
    ghost use Rattle.diff_tables.specs.Tables.{IsTable, TableRows, rows_of};

    ghost Value = { TableRows };

    ghost view = { rows_of };

    ghost invariant = { IsTable };
}

impl Table {
    /// Creates a table of `count` rows with `width` cells each. `cells` has all `width * count`
    /// cells, row by row. The bytes are not copied. The only error is `Memory`.
    pub fn new(
        alloc: Global,
        width: usize,
        count: usize,
        cells: Strings,
    ) -> Result<Table, ComputeError>
        requires { (all : List (List ℕ)) × AreStrings cells all × (length all ≡ width * count) }
        ensures { MatchResult result
            (λ t. (t.width ≡ width)
            × ((all : List (List ℕ)) → AreStrings cells all → t.rows ≡ cut_rows width count all))
            IsMemory }
    {
        let cells = cells.into_cells(alloc)?;
        Ok(Table {
            width,
            count,
            cells,
        })
    }

    /// Returns the number of cells in each row.
    pub fn width(&self) -> usize
        ensures { result ≡ self.now.width }
    {
        self.width
    }

    /// Returns the number of rows.
    pub fn count(&self) -> usize
        ensures { result ≡ length self.now.rows }
    {
        self.count
    }

    /// Returns the cell in column `c` of row `i`. Both are numbered from 0.
    pub fn cell(&self, i: usize, c: usize) -> &[u8]
        requires row { i < length self.now.rows }
        requires column { c < self.now.width }
        ensures { result.now ≡ get_or (get_or self.now.rows i []) c [] }
    {
        // The index below is less than this count, which is a `usize`, so the index doesn't
        // overflow.
        let _cells = self.cells.count();
        self.cells.value(self.width * i + c)
    }

    /// Returns the indices of the pairs whose two rows differ in the length or in a byte of a cell,
    /// in ascending order. Pair `p` is row `rows[p]` of this table and row `other_rows[p]` of
    /// `other`. Each cell is compared with the cell of the other row in the same column. Both
    /// tables must have the same width. The only error is a failed allocation.
    pub(crate) fn unlike_pairs(
        &self,
        alloc: Global,
        rows: &[u32],
        other: &Table,
        other_rows: &[u32],
    ) -> Result<Vec<usize>, AllocError>
        requires width { self.now.width ≡ other.now.width }
        requires pairs { ArePairs self.now.rows other.now.rows rows.now other_rows.now }
        ensures { IfOk result
            (λ places. ListsAllBut
            (AreSameRows self.now.rows other.now.rows rows.now other_rows.now) (length rows.now)
            places.items) }
    {
        self.cells
            .unlike_pairs(alloc, rows, &other.cells, other_rows, self.width)
    }

    /// Returns the rows of this table with borrowed cells.
    pub(crate) fn lent(&self) -> LentRows<'_>
        ensures { Lends self.now result }
    {
        LentRows {
            width: self.width,
            count: self.count,
            cells: self.cells.lent(),
        }
    }
}
