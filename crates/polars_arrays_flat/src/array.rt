//! The trait of all arrays.

ghost use Rattle.std.specs.Prelude.{◌≡◌, ℕ, List, Bool, Option, MatchResult, length};
ghost use Rattle.std.specs.Option.{option_copied};
ghost use Rattle.polars_arrays_bits.specs.Errors.{IsMemory};
ghost use Rattle.polars_arrays_flat.specs.ArrayRows.{null_total, MasksByPlace};
ghost use Rattle.polars_arrays_flat.specs.Row.{Row};
ghost use Rattle.polars_arrays_flat.specs.StoredRows.{rows_under, NullSlots};
ghost use Rattle.polars_arrays_flat.specs.Validity.{HasBits};

use crate::mask::Mask;
use polars_arrays_bits::bitmap::Bitmap;
use polars_arrays_bits::error::ComputeError;
use std::alloc::Global;

/// An array of rows. It stores a row in each slot, and has a mask that says which rows are present.
/// A row is null if its bit of the mask is 0; otherwise it is the stored row.
///
/// The mask is the validity that the array stores, except in a dictionary: there, a row's bit is
/// also 0 if the row's key refers to a null entry. Kernels read the mask.
pub trait Array {
    // The stored rows, also those under nulls.
    ghost slots: { Self → List Row };

    // The validity that the array stores, if any.
    ghost validity_bits: { Self → Option (List Bool) };

    // The mask: a bit for each row, 1 if the row is present. None masks no row. Only the mask
    // defines which of the stored rows are replaced by null.
    ghost mask: { Self → Option (List Bool) };

    // The number of rows that the validity masks or that are stored as null.
    ghost nulls: { Self → ℕ };

    // Holds if two arrays have the same type.
    ghost same_type: { Self → Self → Type 0 };

    // Holds if the array is good: it and all arrays inside it meet what their constructors require.
    // The Rust type of a nested array does not guarantee this. An array without child arrays is
    // always good.
    ghost good: { Self → Type 0 };

    /// Returns the number of rows.
    fn len(&self) -> usize
        ensures { result ≡ length (slots self.now) };

    /// Returns the validity that the array stores: a bit for each row, 0 if the row is masked (the
    /// Arrow layout). Returns `None` if the array stores no validity.
    fn validity(&self) -> Option<&Bitmap>
        requires good { good self.now }
        ensures validity { option_copied result ≡ validity_bits self.now }
        ensures bits { HasBits (length (slots self.now)) (validity_bits self.now) };

    /// Returns the mask of all rows. Borrows the bits from the array, or computes them. The error
    /// is `Memory`.
    fn missing_mask(&self, alloc: Global) -> Result<Mask<'_>, ComputeError>
        requires good { good self.now }
        ensures mask { MatchResult result (λ present. present ≡ mask self.now) IsMemory }
        ensures bits { HasBits (length (slots self.now)) (mask self.now) };

    /// Returns the number of rows that the validity masks or that are stored as null. In a
    /// dictionary, a row that the validity does not mask is not counted, even if its entry is null.
    fn null_count(&self) -> usize
        ensures nulls { result ≡ nulls self.now }
        ensures rows { good self.now → result
            ≡ null_total (rows_under (validity_bits self.now) (slots self.now)) };

    // Only types whose arrays have no validity store rows as Null.
    ghost null_law: { (a b : Self) (i : ℕ)
        → NullSlots (slots a) (mask a) (mask b) (same_type a b × same_type b a) i };
}

/// States a law of every array: a row is the stored one if it is present, and null if it is masked.
/// Does nothing at run time.
#[tactic(auto, using(crate::proofs::RowWindows::places))]
pub fn law_rows()
    ensures { MasksByPlace }
{}
