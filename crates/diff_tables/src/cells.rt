//! The cells of a table, stored as an array of byte strings.

ghost use Rattle.std.specs.Prelude.{◌≡◌, ◌<◌, [], None, true, false, length, get_or, IfOk};
ghost use Rattle.polars_arrays_bytes.specs.OffsetStrings.{offset_strings};
ghost use Rattle.diff_pairs.specs.Cells.{AreWhole, strings_of};
ghost use Rattle.diff_tables.specs.Alike.{AreSameCells, ListsAllBut, NameRowsOf};

use crate::alike::unlike_pairs;
use diff_pairs::cells::LentCells;
use polars_arrays_bits::buffer::Buffer;
use polars_arrays_bytes::binary::BinaryArray;
use polars_arrays_flat::byte_rows::ByteRows;
use std::alloc::{AllocError, Global};
use std::marker::Model;

/// An array of cells with 32-bit or 64-bit offsets.
#[derive(Drop)]
enum Stored {
    // An array with 32-bit offsets, and the buffer of its bytes, which the array shares.
    Near(BinaryArray<i32>, Buffer<u8>),
    // An array with 64-bit offsets.
    Far(BinaryArray<i64>),
}

/// The cells of a table, which are byte strings. They have 32-bit offsets if all offsets are below
/// 2^31, and else 64-bit offsets.
pub(crate) struct Cells {
    stored: Stored,
}

// Written by hand, so that dropping cells is a single call in the compiled code.
impl Drop for Cells {
    fn drop(self) {
        let Cells { stored } = self;
        drop(stored);
    }
}

impl Model for Cells {
    ghost use Rattle.diff_tables.specs.Cells.{CellStrings, IsStored, cells_of};

    ghost Value = { CellStrings };

    ghost view = { λ c. cells_of c.stored };

    ghost invariant = { λ c. IsStored c.stored };
}

impl Cells {
    /// Creates cells from an array with 32-bit offsets and no validity. `bytes` is the buffer of
    /// the array's bytes.
    pub(crate) fn near(array: BinaryArray<i32>, bytes: Buffer<u8>) -> Cells
        requires present { array.validity ≡ None }
        requires bytes { bytes.items ≡ array.values }
        ensures { result ≡ record { strings = offset_strings (λ x. x) array; far = false } }
    {
        Cells {
            stored: Stored::Near(array, bytes),
        }
    }

    /// Creates cells from an array with 64-bit offsets and no validity.
    pub(crate) fn far(array: BinaryArray<i64>) -> Cells
        requires { array.validity ≡ None }
        ensures { result ≡ record { strings = offset_strings (λ x. x) array; far = true } }
    {
        Cells {
            stored: Stored::Far(array),
        }
    }

    /// Returns the number of strings.
    pub(crate) fn count(&self) -> usize
        ensures { result ≡ length self.now.strings }
    {
        match &self.stored {
            Stored::Near(array, _) => array.count(),
            Stored::Far(array) => array.count(),
        }
    }

    /// Returns string `i`.
    pub(crate) fn value(&self, i: usize) -> &[u8]
        requires { i < length self.now.strings }
        ensures { result.now ≡ get_or self.now.strings i [] }
    {
        match &self.stored {
            Stored::Near(array, _) => array.bytes(i),
            Stored::Far(array) => array.bytes(i),
        }
    }

    /// Returns the indices of the pairs whose two rows differ in the length or in a byte of a
    /// string, in ascending order. Pair `p` is row `rows[p]` of these cells and row `other_rows[p]`
    /// of `other`. A row is `width` adjacent strings, and each is compared with the string of the
    /// other row in the same column. The only error is a failed allocation.
    pub(crate) fn unlike_pairs(
        &self,
        alloc: Global,
        rows: &[u32],
        other: &Cells,
        other_rows: &[u32],
        width: usize,
    ) -> Result<Vec<usize>, AllocError>
        requires one_length { length rows.now ≡ length other_rows.now }
        requires rows { NameRowsOf width self.now.strings rows.now }
        requires other_rows { NameRowsOf width other.now.strings other_rows.now }
        ensures { IfOk result
            (λ places. ListsAllBut
            (AreSameCells width self.now.strings other.now.strings rows.now other_rows.now)
            (length rows.now) places.items) }
    {
        match (&self.stored, &other.stored) {
            (Stored::Near(left, _), Stored::Near(right, _)) => {
                unlike_pairs(alloc, left, rows, right, other_rows, width)
            }
            (Stored::Near(left, _), Stored::Far(right)) => {
                unlike_pairs(alloc, left, rows, right, other_rows, width)
            }
            (Stored::Far(left), Stored::Near(right, _)) => {
                unlike_pairs(alloc, left, rows, right, other_rows, width)
            }
            (Stored::Far(left), Stored::Far(right)) => {
                unlike_pairs(alloc, left, rows, right, other_rows, width)
            }
        }
    }

    /// Returns the strings as a borrowed array.
    pub(crate) fn lent(&self) -> LentCells<'_>
        ensures strings { strings_of result ≡ self.now.strings }
        ensures whole { AreWhole result }
    {
        match &self.stored {
            Stored::Near(array, bytes) => LentCells::Near(array, bytes),
            Stored::Far(array) => LentCells::Far(array),
        }
    }
}
