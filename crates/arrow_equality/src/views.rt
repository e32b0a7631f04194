//! Comparison of two parts of views, in the memory of the parts.
#![tactic(auto)]

ghost use Rattle.std.specs.Prelude.{◌≡◌, IfErr, IfOk, IfSome};
ghost use Rattle.std.specs.Str.{bytes_eq};
ghost use Rattle.polars_arrays_views.specs.Views.{GoodView, row_bytes};
ghost use Rattle.arrow_parts.specs.Lent.{buffers_in, lent_buffers};
ghost use Rattle.arrow_parts.specs.Refusals.{IsHonest};
ghost use Rattle.arrow_arrays.specs.Good.{HoldRows};
ghost use Rattle.arrow_equality.specs.Views.{AreComparedViews, ArePartViews, AreRowViews};
ghost use Rattle.arrow_equality.specs.Views.{same_rows};

use crate::compared::Compared;
use crate::part_views::{are_part_views, long_row, view_at};
use crate::strings::compare_joined;
use arrow_parts::part::{Bytes, Part};
use arrow_parts::refused::Refused;
use polars_arrays_bits::packing::TruthValues;
use polars_arrays_flat::byte_equality::bytes_equal;
use polars_arrays_views::rows::guess_equal;
use polars_arrays_views::view::View;
use std::alloc::Global;

/// Returns whether the rows of the views `v` and `w` are equal. The rows of `v` lie in `buffers`,
/// those of `w` in `others`. No branch depends on the bytes of rows of at most 12 bytes.
#[inline(always)]
fn lead_to_equal_rows(v: &View, buffers: &[Bytes<'_>], w: &View, others: &[Bytes<'_>]) -> bool
    requires left { GoodView (lent_buffers buffers.now) v.now }
    requires right { GoodView (lent_buffers others.now) w.now }
    ensures { result ≡ bytes_eq (row_bytes (lent_buffers buffers.now) v.now)
        (row_bytes (lent_buffers others.now) w.now) }
{
    if v.is_short() {
        return guess_equal(v, w);
    }
    if !v.same_head(w) {
        return false;
    }
    bytes_equal(long_row(v, buffers), long_row(w, others))
}

/// `n` pairs of views, which lead to rows. The truth value of a pair says whether its rows are
/// equal.
#[derive(Drop)]
pub struct ViewPairs<'a> {
    left: &'a [u8],
    left_buffers: &'a [Bytes<'a>],
    right: &'a [u8],
    right_buffers: &'a [Bytes<'a>],
    n: usize,
    ghost left_views: { AreRowViews (lent_buffers left_buffers.now) left.now n },
    ghost right_views: { AreRowViews (lent_buffers right_buffers.now) right.now n },
}

impl TruthValues for ViewPairs<'_> {
    ghost values = { λ p. same_rows (lent_buffers p.left_buffers.now) p.left.now
        (lent_buffers p.right_buffers.now) p.right.now p.n };

    #[inline(always)]
    fn len(&self) -> usize {
        self.n
    }

    #[inline(always)]
    fn value(&self, i: usize) -> bool {
        let (v, w) = (view_at(self.left, i), view_at(self.right, i));
        lead_to_equal_rows(&v, self.left_buffers, &w, self.right_buffers)
    }

    #[inline(always)]
    fn packs_in_registers(&self) -> bool {
        true
    }
}

/// Borrows the views of two parts of equally many rows. Returns `None` if the parts differ in
/// length, or if `are_part_views` refuses one.
fn pairs_of<'a>(left: &Part<'a>, right: &Part<'a>, texts: bool) -> Option<ViewPairs<'a>>
    ensures left_good { IfSome result (λ _. ArePartViews left.now texts) }
    ensures right_good { IfSome result (λ _. ArePartViews right.now texts) }
    ensures one_length { IfSome result (λ _. left.now.rows ≡ right.now.rows) }
    ensures pairs { IfSome result (λ p. same_rows (lent_buffers p.left_buffers.now) p.left.now
        (lent_buffers p.right_buffers.now) p.right.now p.n
        ≡ same_rows (buffers_in left.now) left.now.u8s.now
        (buffers_in right.now) right.now.u8s.now left.now.rows) }
{
    if left.rows != right.rows {
        return None;
    }
    if !are_part_views(left, texts) || !are_part_views(right, texts) {
        return None;
    }
    Some(ViewPairs {
        left: left.u8s,
        left_buffers: left.buffers,
        right: right.u8s,
        right_buffers: right.buffers,
        n: left.rows,
    })
}

/// Compares the rows of two parts of views, row by row, with one comparison for each row. If
/// `texts` is true, the rows have to be UTF-8. Returns `None` if `pairs_of` does. Fails with
/// `Parts` if a part has fewer validity bits than rows, and with `Memory` if an allocation fails.
pub fn compare_views(
    alloc: Global,
    left: &Part<'_>,
    right: &Part<'_>,
    texts: bool,
) -> Result<Option<Compared>, Refused>
    ensures compared { IfOk result
        (λ found. IfSome found (AreComparedViews left.now right.now texts)) }
    ensures refused { IfErr result (IsHonest (HoldRows left.now × HoldRows right.now)) }
{
    let Some(pairs) = pairs_of(left, right, texts) else {
        return Ok(None);
    };
    let compared = compare_joined(alloc, &pairs, left, right)?;
    Ok(Some(compared))
}
