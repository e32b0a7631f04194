//! The trait `ViewComparison`: comparisons of two rows of arrays of views.

ghost use Rattle.std.specs.Prelude.{◌≡◌, ◌<◌, ◌+◌, ℕ, Bool, List, [], IsTrue, false, if◌then◌else◌};
ghost use Rattle.std.specs.Prelude.{length, slice_index_or};
ghost use Rattle.polars_arrays_flat.specs.Row.{Row, Bytes};
ghost use Rattle.polars_arrays_views.specs.Parts.{view_strings};
ghost use Rattle.polars_arrays_views.specs.Views.{GoodView, is_short, row_bytes, followed_eq};
ghost use Rattle.polars_arrays_views.specs.Views.{followed_lt};
ghost use Rattle.polars_compare_leaves.specs.Order.{row_at_least, row_at_most, row_greater};
ghost use Rattle.polars_compare_leaves.specs.Order.{row_less};
ghost use Rattle.polars_compare_leaves.specs.Sameness.{other_row, same_row};

use polars_arrays_numbers::comparison::{
    Equal, Greater, GreaterOrEqual, Less, LessOrEqual, Unequal,
};
use polars_arrays_numbers::steps::Steps;
use polars_arrays_views::binary_view::BinaryViewArray;
use polars_arrays_views::rows::{
    bytes_less_row, guess_equal, lies_in_view, row_equals_bytes, row_less, row_less_bytes,
    rows_equal,
};
use polars_arrays_views::scalar::ScalarRow;
use polars_arrays_views::view::View;

/// A comparison of two byte strings in views: `Equal`, `Unequal`, `Less`, `LessOrEqual`, `Greater`
/// or `GreaterOrEqual`.
pub trait ViewComparison {
    // The comparison as a relation of two rows.
    ghost rows: { Row → Row → Bool };

    // True for two byte strings whose comparison reads a buffer.
    ghost follows: { List ℕ → List ℕ → Bool };

    // True for two views for which `guess` is sure to be right.
    ghost sure: { List ℕ → List ℕ → Bool };

    /// Returns whether the comparison holds for row `i` of the left array and row `j` of the right
    /// one. Masked rows are compared by their stored bytes. `steps` increases by one if a buffer is
    /// read.
    fn compare(
        &self,
        left: &BinaryViewArray,
        i: usize,
        right: &BinaryViewArray,
        j: usize,
        steps: &mut Steps,
    ) -> bool
        requires left { i < length left.now.views }
        requires right { j < length right.now.views }
        ensures told { result
            ≡ rows (Bytes (slice_index_or (view_strings left.now) i []))
            (Bytes (slice_index_or (view_strings right.now) j [])) }
        ensures counted { steps.new
            ≡ steps.old + (if follows (slice_index_or (view_strings left.now) i [])
            (slice_index_or (view_strings right.now) j []) then 1 else 0) };

    /// Guesses whether the comparison holds for the rows of the views `v` and `w`, without reading
    /// a buffer. If `is_sure` is true for the two views, the result is right; otherwise it may be
    /// wrong.
    fn guess(&self, v: &View, w: &View) -> bool
        ensures { (buffers others : List (List ℕ)) → GoodView buffers v.now → GoodView others w.now
            → IsTrue (sure v.now w.now) → result
            ≡ rows (Bytes (row_bytes buffers v.now)) (Bytes (row_bytes others w.now)) };

    /// Returns whether `guess` is sure to be right for two views. If so, `compare` reads no buffer
    /// for their rows. The default returns `false`.
    #[inline(always)]
    fn is_sure(&self, _v: &View, _w: &View) -> bool
        ensures sure { IsTrue result → IsTrue (sure _v.now _w.now) }
        ensures free { (buffers others : List (List ℕ)) → GoodView buffers _v.now
            → GoodView others _w.now → IsTrue result
            → follows (row_bytes buffers _v.now) (row_bytes others _w.now) ≡ false }
    {
        false
    }

    /// Returns whether the comparison holds for row `i` of `left` and the byte string `right`. A
    /// masked row is compared by its stored bytes.
    fn compare_bytes(&self, left: &BinaryViewArray, i: usize, right: &ScalarRow) -> bool
        requires { i < length left.now.views }
        ensures { result
            ≡ rows (Bytes (slice_index_or (view_strings left.now) i [])) (Bytes right.now) };
}

impl ViewComparison for Equal {
    ghost rows = { same_row };

    ghost follows = { followed_eq };

    ghost sure = { λ v _. is_short v };

    #[inline(always)]
    fn compare(
        &self,
        left: &BinaryViewArray,
        i: usize,
        right: &BinaryViewArray,
        j: usize,
        steps: &mut Steps,
    ) -> bool {
        rows_equal(left, i, right, j, steps)
    }

    #[inline(always)]
    fn guess(&self, v: &View, w: &View) -> bool {
        guess_equal(v, w)
    }

    #[inline(always)]
    fn is_sure(&self, v: &View, _w: &View) -> bool {
        lies_in_view(v)
    }

    #[inline(always)]
    fn compare_bytes(&self, left: &BinaryViewArray, i: usize, right: &ScalarRow) -> bool {
        row_equals_bytes(left, i, right)
    }
}

impl ViewComparison for Unequal {
    ghost rows = { other_row };

    ghost follows = { followed_eq };

    ghost sure = { λ v _. is_short v };

    #[inline(always)]
    fn compare(
        &self,
        left: &BinaryViewArray,
        i: usize,
        right: &BinaryViewArray,
        j: usize,
        steps: &mut Steps,
    ) -> bool {
        !rows_equal(left, i, right, j, steps)
    }

    #[inline(always)]
    fn guess(&self, v: &View, w: &View) -> bool {
        !guess_equal(v, w)
    }

    #[inline(always)]
    fn is_sure(&self, v: &View, _w: &View) -> bool {
        lies_in_view(v)
    }

    #[inline(always)]
    fn compare_bytes(&self, left: &BinaryViewArray, i: usize, right: &ScalarRow) -> bool {
        !row_equals_bytes(left, i, right)
    }
}

impl ViewComparison for Less {
    ghost rows = { row_less };

    ghost follows = { followed_lt };

    ghost sure = { λ _ _. false };

    #[inline(always)]
    fn compare(
        &self,
        left: &BinaryViewArray,
        i: usize,
        right: &BinaryViewArray,
        j: usize,
        steps: &mut Steps,
    ) -> bool {
        row_less(left, i, right, j, steps)
    }

    #[inline(always)]
    fn guess(&self, _v: &View, _w: &View) -> bool {
        false
    }

    #[inline(always)]
    fn compare_bytes(&self, left: &BinaryViewArray, i: usize, right: &ScalarRow) -> bool {
        row_less_bytes(left, i, right)
    }
}

impl ViewComparison for LessOrEqual {
    ghost rows = { row_at_most };

    ghost follows = { λ xs ys. followed_lt ys xs };

    ghost sure = { λ _ _. false };

    #[inline(always)]
    fn compare(
        &self,
        left: &BinaryViewArray,
        i: usize,
        right: &BinaryViewArray,
        j: usize,
        steps: &mut Steps,
    ) -> bool {
        !row_less(right, j, left, i, steps)
    }

    #[inline(always)]
    fn guess(&self, _v: &View, _w: &View) -> bool {
        false
    }

    #[inline(always)]
    fn compare_bytes(&self, left: &BinaryViewArray, i: usize, right: &ScalarRow) -> bool {
        !bytes_less_row(right, left, i)
    }
}

impl ViewComparison for Greater {
    ghost rows = { row_greater };

    ghost follows = { λ xs ys. followed_lt ys xs };

    ghost sure = { λ _ _. false };

    #[inline(always)]
    fn compare(
        &self,
        left: &BinaryViewArray,
        i: usize,
        right: &BinaryViewArray,
        j: usize,
        steps: &mut Steps,
    ) -> bool {
        row_less(right, j, left, i, steps)
    }

    #[inline(always)]
    fn guess(&self, _v: &View, _w: &View) -> bool {
        false
    }

    #[inline(always)]
    fn compare_bytes(&self, left: &BinaryViewArray, i: usize, right: &ScalarRow) -> bool {
        bytes_less_row(right, left, i)
    }
}

impl ViewComparison for GreaterOrEqual {
    ghost rows = { row_at_least };

    ghost follows = { followed_lt };

    ghost sure = { λ _ _. false };

    #[inline(always)]
    fn compare(
        &self,
        left: &BinaryViewArray,
        i: usize,
        right: &BinaryViewArray,
        j: usize,
        steps: &mut Steps,
    ) -> bool {
        !row_less(left, i, right, j, steps)
    }

    #[inline(always)]
    fn guess(&self, _v: &View, _w: &View) -> bool {
        false
    }

    #[inline(always)]
    fn compare_bytes(&self, left: &BinaryViewArray, i: usize, right: &ScalarRow) -> bool {
        !row_less_bytes(left, i, right)
    }
}
