//! The relation "is better" of byte strings in a search for the least or the greatest one.

ghost use Rattle.std.specs.Prelude.{◌≡◌, ◌<◌, length};
ghost use Rattle.polars_arrays_flat.specs.Row.{Bytes};
ghost use Rattle.polars_arrays_views.specs.Parts.{view_strings};
ghost use Rattle.polars_compare_extremes.specs.Places.{string_row};
ghost use Rattle.polars_compare_extremes.specs.Preference.{Prefers};
ghost use Rattle.polars_compare_extremes.specs.PreferenceLaws.{greater_prefers, less_prefers};

use crate::first_bytes::less_by_first;
use crate::view_places::less_by_prefix;
use polars_arrays_numbers::comparison::{Greater, Less};
use polars_arrays_views::binary_view::BinaryViewArray;
use polars_compare_leaves::bytes::ByteComparison;

/// A comparison that says whether one byte string is better than another. `Less` finds the least
/// byte string of a list, and `Greater` the greatest.
pub trait Preference: ByteComparison {
    /// Returns whether the left byte string is better than the right one. This is fast if their
    /// first bytes differ, since no other byte is then read.
    fn is_better(&self, left: &[u8], right: &[u8]) -> bool
        ensures { result ≡ Self.ByteComparison.rows (Bytes left.now) (Bytes right.now) };

    /// Returns whether row `i` of the array is better than row `j`. Masked rows are compared by
    /// their stored bytes. This is fast if the prefixes (first four bytes) in the two views differ.
    fn is_better_row(&self, array: &BinaryViewArray, i: usize, j: usize) -> bool
        requires row { i < length array.now.views }
        requires other { j < length array.now.views }
        ensures { result
            ≡ Self.ByteComparison.rows (string_row (view_strings array.now) i)
            (string_row (view_strings array.now) j) };

    // Laws of the relation. Of two byte strings, at most one is better than the other. For all x, y
    // and z: if y is better than x, and z is not better than x, then y is better than z.
    ghost preference_law: { Prefers Bytes Self.ByteComparison.rows };
}

impl Preference for Less {
    ghost preference_law = { less_prefers };

    #[inline(always)]
    fn is_better(&self, left: &[u8], right: &[u8]) -> bool {
        less_by_first(left, right)
    }

    #[inline(always)]
    fn is_better_row(&self, array: &BinaryViewArray, i: usize, j: usize) -> bool {
        less_by_prefix(array, i, j)
    }
}

impl Preference for Greater {
    ghost preference_law = { greater_prefers };

    #[inline(always)]
    fn is_better(&self, left: &[u8], right: &[u8]) -> bool {
        less_by_first(right, left)
    }

    #[inline(always)]
    fn is_better_row(&self, array: &BinaryViewArray, i: usize, j: usize) -> bool {
        less_by_prefix(array, j, i)
    }
}
