//! Missing equality of arrays of any kind: combines the raw bits of a comparison with the masks.

ghost use Rattle.std.specs.Prelude.{◌≡◌, ◌≢◌, None, length, replicate, MatchResult, ⊤};
ghost use Rattle.polars_arrays_bits.specs.Errors.{IsMemory};
ghost use Rattle.polars_arrays_flat.specs.Row.{Row, Null};
ghost use Rattle.polars_arrays_flat.specs.StoredRows.{rows_under};
ghost use Rattle.polars_compare_leaves.specs.Equality.{RawEquality, MissingEquality};
ghost use Rattle.polars_compare_leaves.specs.Joining.{told};

use polars_arrays_bits::bitmap::Bitmap;
use polars_arrays_bits::error::ComputeError;
use polars_arrays_flat::array::Array;
use polars_compare_leaves::joining::{Relation, join_masks};
use std::alloc::Global;

/// Returns the bits of missing equality of `left` and `right`, or of missing inequality if
/// `relation` is `Unequal`. Combines `raw`, the bits of a raw comparison by the same relation, with
/// the masks of both arrays. The error is `Memory`.
#[inline]
pub(crate) fn join_rows<A: Array>(
    alloc: Global,
    relation: Relation,
    raw: Bitmap,
    left: &A,
    right: &A,
) -> Result<Bitmap, ComputeError>
    requires good_left { A.good left.now }
    requires good_right { A.good right.now }
    requires one_length { length (A.slots left.now) ≡ length (A.slots right.now) }
    requires raw { RawEquality (told relation) (A.same_type left.now right.now) (A.mask left.now)
        (A.mask right.now) (A.slots left.now) (A.slots right.now) raw }
    ensures { MatchResult result
        (MissingEquality (told relation) (A.same_type left.now right.now)
        (rows_under (A.mask left.now) (A.slots left.now))
        (rows_under (A.mask right.now) (A.slots right.now)))
        IsMemory }
{
    let left_mask = left.missing_mask(alloc)?;
    let right_mask = right.missing_mask(alloc)?;
    join_masks(alloc, relation, raw, left_mask.bits(), right_mask.bits())
}

/// Returns the bits of missing equality of each row and one scalar that is not null, or of missing
/// inequality if `relation` is `Unequal`. Combines `raw`, the bits of a raw comparison by the same
/// relation, with the mask of `rows`. The error is `Memory`.
#[inline]
pub(crate) fn join_scalar<A: Array>(
    alloc: Global,
    relation: Relation,
    raw: Bitmap,
    rows: &A,
) -> Result<Bitmap, ComputeError>
    requires good { A.good rows.now }
    requires one_length { length raw ≡ length (A.slots rows.now) }
    ensures { MatchResult result
        (λ bits. (scalar : Row) → scalar ≢ Null
        → RawEquality (told relation) ⊤ (A.mask rows.now) None (A.slots rows.now)
        (replicate (length (A.slots rows.now)) scalar) raw
        → MissingEquality (told relation) ⊤ (rows_under (A.mask rows.now) (A.slots rows.now))
        (replicate (length (A.slots rows.now)) scalar) bits)
        IsMemory }
{
    let mask = rows.missing_mask(alloc)?;
    join_masks(alloc, relation, raw, mask.bits(), None)
}
