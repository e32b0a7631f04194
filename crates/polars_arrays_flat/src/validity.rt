//! Functions of an optional validity. Without a validity, all rows are present.

ghost use Rattle.std.specs.Prelude.{◌≡◌, ◌↔◌, ◌+◌, ◌≤◌, ◌<◌, ℕ, List, IsTrue, IfSome, MatchResult};
ghost use Rattle.std.specs.Prelude.{length};
ghost use Rattle.std.specs.Option.{option_copied};
ghost use Rattle.polars_arrays_bits.specs.Errors.{IsMemory};
ghost use Rattle.polars_arrays_flat.specs.ArrayRows.{null_total};
ghost use Rattle.polars_arrays_flat.specs.Row.{Row};
ghost use Rattle.polars_arrays_flat.specs.StoredRows.{byte_slots, rows_under};
ghost use Rattle.polars_arrays_flat.specs.Validity.{HasBits, is_present, masked_count};
ghost use Rattle.polars_arrays_flat.specs.Validity.{validity_window, window};

use polars_arrays_bits::bitmap::Bitmap;
use polars_arrays_bits::error::ComputeError;
use std::alloc::Global;

/// Returns whether a validity has exactly `len` bits. Returns `true` if there is no validity.
pub fn has_bits(len: usize, validity: &Option<Bitmap>) -> bool
    ensures { IsTrue result ↔ HasBits len validity.now }
{
    match validity {
        Some(bits) => bits.len() == len,
        None => true,
    }
}

/// Returns whether row `i` is present. If there is a validity, it must have a bit for the row.
#[inline]
pub fn is_present(validity: Option<&Bitmap>, i: usize) -> bool
    requires { IfSome (option_copied validity) (λ bits. i < length bits) }
    ensures { result ≡ is_present (option_copied validity.entry) i }
{
    validity.is_none_or(|bits| bits.get_bit(i))
}

/// Returns the number of masked rows, which is 0 without a validity. If the stored rows are byte
/// strings, this is the number of null rows.
#[tactic(auto, using(crate::proofs::NullCounts::nulls_counted))]
pub fn null_count(validity: &Option<Bitmap>) -> usize
    ensures masked { result ≡ masked_count validity.now }
    ensures bytes { (strings : List (List ℕ)) → HasBits (length strings) validity.now → result
        ≡ null_total (rows_under validity.now (byte_slots strings)) }
{
    match validity {
        Some(bits) => bits.unset_bits(),
        None => 0,
    }
}

/// Slices a validity in place: only the bits of the `n` rows from row `at` on remain. Does nothing
/// if there is no validity.
#[tactic(auto, using(crate::proofs::RowWindows::windows))]
pub fn slice_validity(validity: &mut Option<Bitmap>, at: usize, n: usize)
    requires { IfSome validity.old (λ bits. at + n ≤ length bits) }
    ensures bits { validity.new ≡ validity_window at n validity.old }
    ensures rows { (slots : List Row) → rows_under validity.new (window at n slots)
        ≡ window at n (rows_under validity.old slots) }
{
    if let Some(bits) = validity {
        bits.slice(at, n);
    }
}

/// Clones a validity, if there is one. The error is `Memory`.
pub fn clone_validity(
    alloc: Global,
    validity: &Option<Bitmap>,
) -> Result<Option<Bitmap>, ComputeError>
    ensures { MatchResult result (λ copy. copy ≡ validity.now) IsMemory }
{
    match validity {
        Some(bits) => {
            let copy = bits.clone_bitmap(alloc)?;
            Ok(Some(copy))
        }
        None => Ok(None),
    }
}
