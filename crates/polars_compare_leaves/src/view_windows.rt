//! Comparisons of stored rows of arrays of views. Validities are not read.

ghost use Rattle.std.specs.Prelude.{◌≡◌, ◌+◌, ◌^◌, ◌<◌, ◌≤◌, length, map, slice_index_or, [], IfOk};
ghost use Rattle.std.specs.Prelude.{MatchResult};
ghost use Rattle.std.specs.List.{All};
ghost use Rattle.polars_arrays_bits.specs.Bits.{first_of};
ghost use Rattle.polars_arrays_bits.specs.Errors.{IsMemory};
ghost use Rattle.polars_arrays_flat.specs.Row.{Bytes};
ghost use Rattle.polars_arrays_flat.specs.StoredRows.{byte_slots};
ghost use Rattle.polars_arrays_views.specs.Parts.{view_strings};
ghost use Rattle.polars_arrays_views.specs.Views.{GoodView, row_bytes};
ghost use Rattle.polars_compare_leaves.specs.Followed.{followed, pair_cost};
ghost use Rattle.polars_compare_leaves.specs.Pairs.{ComparesPairs, compared_pair};

use crate::view_comparison::ViewComparison;
use polars_arrays_bits::bitmap::Bitmap;
use polars_arrays_bits::counting::CountedValues;
use polars_arrays_bits::error::ComputeError;
use polars_arrays_bits::packing::TruthValues;
use polars_arrays_flat::array::Array;
use polars_arrays_numbers::steps::Steps;
use polars_arrays_views::binary_view::BinaryViewArray;
use polars_arrays_views::scalar::ScalarRow;
use polars_arrays_views::view::View;
use std::alloc::Global;

// The results of a comparison for each `i` below `n`: of row `a + i` of the left array and row
// `b + i` of the right one. The slices of views are stored next to the arrays, so that a loop
// doesn't fetch them for each row.
#[derive(Drop)]
struct ViewPairs<'a, E> {
    comparison: &'a E,
    left: &'a BinaryViewArray,
    left_views: &'a [View],
    a: usize,
    right: &'a BinaryViewArray,
    right_views: &'a [View],
    b: usize,
    n: usize,
    ghost left_is: { left_views.now ≡ left.now.views },
    ghost right_is: { right_views.now ≡ right.now.views },
    ghost left_good: { All (GoodView left.now.buffers) left.now.views },
    ghost right_good: { All (GoodView right.now.buffers) right.now.views },
    ghost left_in: { a + n ≤ length left.now.views },
    ghost right_in: { b + n ≤ length right.now.views },
    ghost left_fits: { a + n < 2 ^ 64 },
    ghost right_fits: { b + n < 2 ^ 64 },
}

impl<'a, E: ViewComparison> ViewPairs<'a, E> {
    // Returns the two views of pair `i`.
    #[inline(always)]
    fn views_at(&self, i: usize) -> (&View, &View)
        requires { i < self.now.n }
        ensures left { result.0.now ≡ slice_index_or self.now.left_views.now (self.now.a + i) [] }
        ensures right { result.1.now ≡ slice_index_or self.now.right_views.now (self.now.b + i) [] }
        ensures left_good { GoodView self.now.left.now.buffers result.0.now }
        ensures right_good { GoodView self.now.right.now.buffers result.1.now }
        ensures left_row { row_bytes self.now.left.now.buffers result.0.now
            ≡ slice_index_or (view_strings self.now.left.now) (self.now.a + i) [] }
        ensures right_row { row_bytes self.now.right.now.buffers result.1.now
            ≡ slice_index_or (view_strings self.now.right.now) (self.now.b + i) [] }
    {
        (&self.left_views[self.a + i], &self.right_views[self.b + i])
    }
}

impl<'a, E: ViewComparison> CountedValues for ViewPairs<'a, E> {
    ghost values = { λ p. first_of
        (compared_pair E.rows (view_strings p.left.now) (view_strings p.right.now) p.a p.b) p.n };

    ghost costs = { λ p. pair_cost E.follows (view_strings p.left.now) (view_strings p.right.now)
        p.a p.b };

    ghost sure = { λ p i. E.sure (slice_index_or p.left_views.now (p.a + i) [])
        (slice_index_or p.right_views.now (p.b + i) []) };

    #[inline(always)]
    fn len(&self) -> usize {
        self.n
    }

    #[inline(always)]
    fn value(&self, i: usize, steps: &mut Steps) -> bool {
        let (left, right) = (self.left, self.right);
        self.comparison
            .compare(left, self.a + i, right, self.b + i, steps)
    }

    #[inline(always)]
    fn guess(&self, i: usize) -> bool {
        let (v, w) = self.views_at(i);
        self.comparison.guess(v, w)
    }

    #[inline(always)]
    fn is_sure(&self, i: usize) -> bool {
        let (v, w) = self.views_at(i);
        self.comparison.is_sure(v, w)
    }
}

/// Returns a bit for each `i` below `n`: 1 if the comparison holds for the stored row `a + i` of
/// the left array and the stored row `b + i` of the right one. `steps` increases by one for each
/// pair whose comparison reads a buffer. The error is `Memory`.
pub fn compare_view_windows<E: ViewComparison>(
    alloc: Global,
    comparison: &E,
    left: &BinaryViewArray,
    a: usize,
    right: &BinaryViewArray,
    b: usize,
    n: usize,
    steps: &mut Steps,
) -> Result<Bitmap, ComputeError>
    requires left_in { a + n ≤ length left.now.views }
    requires right_in { b + n ≤ length right.now.views }
    ensures told { MatchResult result
        (ComparesPairs E.rows (view_strings left.now) (view_strings right.now) a b n) IsMemory }
    ensures counted { IfOk result
        (λ _. steps.new
        ≡ steps.old + followed E.follows (view_strings left.now) (view_strings right.now) a b n) }
    ensures kept { steps.old ≤ steps.new }
{
    // For the proof: both lengths fit in 64 bits, so the indices don't overflow.
    let _left_len = left.len();
    let _right_len = right.len();
    let pairs = ViewPairs {
        comparison,
        left,
        left_views: left.views(),
        a,
        right,
        right_views: right.views(),
        b,
        n,
    };
    Bitmap::from_counted(alloc, &pairs, steps)
}

// The results of a comparison of each row of an array with the byte string `right`.
#[derive(Drop)]
struct ViewsAgainst<'a, E> {
    comparison: &'a E,
    left: &'a BinaryViewArray,
    right: ScalarRow<'a>,
}

impl<'a, E: ViewComparison> TruthValues for ViewsAgainst<'a, E> {
    ghost values = { λ a. map
        (λ row. E.rows row (Bytes a.right)) (byte_slots (view_strings a.left.now)) };

    #[inline(always)]
    fn len(&self) -> usize {
        self.left.len()
    }

    #[inline(always)]
    fn value(&self, i: usize) -> bool {
        self.comparison.compare_bytes(self.left, i, &self.right)
    }

    #[inline(always)]
    fn packs_in_registers(&self) -> bool {
        true
    }
}

/// Returns a bit for each stored row of `left`: 1 if the comparison holds for the row and the byte
/// string `right`. The error is `Memory`.
pub fn compare_view_bytes<E: ViewComparison>(
    alloc: Global,
    comparison: &E,
    left: &BinaryViewArray,
    right: &[u8],
) -> Result<Bitmap, ComputeError>
    ensures { MatchResult result (λ bits. bits ≡ map (λ row. E.rows row (Bytes right.now))
        (byte_slots (view_strings left.now))) IsMemory }
{
    let right = ScalarRow::new(right);
    Bitmap::from_values(
        alloc,
        &ViewsAgainst {
            comparison,
            left,
            right,
        },
    )
}
