//! Combines the raw truth values of a comparison with the masks of both sides, which decides how
//! nulls compare.

ghost use Rattle.std.specs.Prelude.{◌≡◌, Bool, List, length, MatchResult};
ghost use Rattle.polars_arrays_bits.specs.Bits.{zip3};
ghost use Rattle.polars_arrays_bits.specs.Errors.{IsMemory};
ghost use Rattle.polars_arrays_bits.specs.Logic.{merged_eq, merged_ne};
ghost use Rattle.polars_arrays_flat.specs.Validity.{HasBits};
ghost use Rattle.polars_compare_leaves.specs.Joining.{Joined, told};

use polars_arrays_bits::bit_mask::BitMask;
use polars_arrays_bits::bitmap::Bitmap;
use polars_arrays_bits::error::ComputeError;
use polars_arrays_bits::packing::TruthValues;
use polars_arrays_flat::mask::Mask;
use std::alloc::Global;

/// The meaning of a set bit in the result of a comparison: two rows are equal, or unequal.
#[derive(Clone, Copy, Debug, PartialEq, Eq)]
pub enum Relation {
    Equal,
    Unequal,
}

/// The raw truth values of a comparison: a bitmap, or values that are packed into words while they
/// are read. Implementations only combine bits. What null is equal to is decided in `join_masks`.
pub trait RawValues {
    // The truth values, the first one first.
    ghost values: { Self → List Bool };

    /// Returns the truth values as a bitmap. The error is `Memory`.
    fn into_bitmap(self, alloc: Global) -> Result<Bitmap, ComputeError>
        ensures { MatchResult result (λ bits. bits ≡ values self) IsMemory };

    /// Combines each truth value with the validity bits of the two rows that were compared. For the
    /// truth value `q`, the bit `l` of `left` and the bit `r` of `right` at the same index, the bit
    /// of the result is `(q & l & r) | !(l | r)`. If `q` says that the two values are equal, this
    /// is missing equality of the rows. The error is `Memory`.
    fn merge_eq(
        self,
        alloc: Global,
        left: &BitMask<'_>,
        right: &BitMask<'_>,
    ) -> Result<Bitmap, ComputeError>
        requires left { length left.now ≡ length (values self) }
        requires right { length right.now ≡ length (values self) }
        ensures { MatchResult result
            (λ bits. bits ≡ zip3 merged_eq (values self) left.now right.now) IsMemory };

    /// Combines each truth value with the validity bits of the two rows that were compared. For the
    /// truth value `q`, the bit `l` of `left` and the bit `r` of `right` at the same index, the bit
    /// of the result is `(q & l & r) | (l ^ r)`. If `q` says that the two values differ, this is
    /// missing inequality of the rows. The error is `Memory`.
    fn merge_ne(
        self,
        alloc: Global,
        left: &BitMask<'_>,
        right: &BitMask<'_>,
    ) -> Result<Bitmap, ComputeError>
        requires left { length left.now ≡ length (values self) }
        requires right { length right.now ≡ length (values self) }
        ensures { MatchResult result
            (λ bits. bits ≡ zip3 merged_ne (values self) left.now right.now) IsMemory };
}

// Changes the words in place if `Bitmap::into_mut` can reuse them, and a copy of them otherwise.
impl RawValues for Bitmap {
    ghost values = { λ bits. bits };

    #[inline(always)]
    fn into_bitmap(self, _alloc: Global) -> Result<Bitmap, ComputeError> {
        Ok(self)
    }

    fn merge_eq(
        self,
        alloc: Global,
        left: &BitMask<'_>,
        right: &BitMask<'_>,
    ) -> Result<Bitmap, ComputeError> {
        let mut bits = self.into_mut(alloc)?;
        bits.merge_eq_assign(left, right);
        Ok(bits.freeze())
    }

    fn merge_ne(
        self,
        alloc: Global,
        left: &BitMask<'_>,
        right: &BitMask<'_>,
    ) -> Result<Bitmap, ComputeError> {
        let mut bits = self.into_mut(alloc)?;
        bits.merge_ne_assign(left, right);
        Ok(bits.freeze())
    }
}

// Packs truth values into words, and combines each word with the masks before it is stored, so that
// no bitmap of raw bits is needed.
impl<V: TruthValues> RawValues for &V {
    ghost values = { λ raw. V.values raw.now };

    #[inline(always)]
    fn into_bitmap(self, alloc: Global) -> Result<Bitmap, ComputeError> {
        Bitmap::from_values(alloc, self)
    }

    #[inline(always)]
    fn merge_eq(
        self,
        alloc: Global,
        left: &BitMask<'_>,
        right: &BitMask<'_>,
    ) -> Result<Bitmap, ComputeError> {
        BitMask::merge_eq_values(alloc, self, left, right)
    }

    #[inline(always)]
    fn merge_ne(
        self,
        alloc: Global,
        left: &BitMask<'_>,
        right: &BitMask<'_>,
    ) -> Result<Bitmap, ComputeError> {
        BitMask::merge_ne_values(alloc, self, left, right)
    }
}

// Combines the truth values `raw` with the mask of one side, and returns the bits of missing
// equality or inequality, as `relation` says. All rows of the other side are present. The error is
// `Memory`.
fn join_one<R: RawValues>(
    alloc: Global,
    relation: Relation,
    raw: R,
    mask: &BitMask<'_>,
) -> Result<Bitmap, ComputeError>
    requires { length mask.now ≡ length (R.values raw) }
    ensures left { MatchResult result
        (Joined (told relation) (Some mask.now) None (R.values raw)) IsMemory }
    ensures right { MatchResult result
        (Joined (told relation) None (Some mask.now) (R.values raw)) IsMemory }
{
    let raw = raw.into_bitmap(alloc)?;
    let mut bits = raw.into_mut(alloc)?;
    match relation {
        Relation::Equal => bits.and_assign_mask(mask),
        Relation::Unequal => bits.or_not_assign_mask(mask),
    }
    Ok(bits.freeze())
}

// Combines the truth values `raw` with the masks `left` and `right`, and returns the bits of
// missing equality or inequality, as `relation` says. The error is `Memory`.
#[inline(always)]
fn join_both<R: RawValues>(
    alloc: Global,
    relation: Relation,
    raw: R,
    left: &BitMask<'_>,
    right: &BitMask<'_>,
) -> Result<Bitmap, ComputeError>
    requires left { length left.now ≡ length (R.values raw) }
    requires right { length right.now ≡ length (R.values raw) }
    ensures { MatchResult result
        (Joined (told relation) (Some left.now) (Some right.now) (R.values raw)) IsMemory }
{
    match relation {
        Relation::Equal => raw.merge_eq(alloc, left, right),
        Relation::Unequal => raw.merge_ne(alloc, left, right),
    }
}

/// Combines the truth values `raw` of a comparison with the masks `left` and `right`, and returns
/// the bits of missing equality or inequality. `relation` says what a 1 means, in `raw` and in the
/// result. A side without a mask has no nulls. If both rows are present, their bit stays the same.
/// Two nulls are equal, and a null and a present row are not. The error is `Memory`.
#[inline(always)]
pub fn join_masks<R: RawValues>(
    alloc: Global,
    relation: Relation,
    raw: R,
    left: Option<BitMask<'_>>,
    right: Option<BitMask<'_>>,
) -> Result<Bitmap, ComputeError>
    requires left { HasBits (length (R.values raw)) left }
    requires right { HasBits (length (R.values raw)) right }
    ensures { MatchResult result
        (Joined (told relation) left.entry right.entry (R.values raw)) IsMemory }
{
    match (left, right) {
        (None, None) => raw.into_bitmap(alloc),
        (Some(mask), None) => join_one(alloc, relation, raw, &mask),
        (None, Some(mask)) => join_one(alloc, relation, raw, &mask),
        (Some(left), Some(right)) => join_both(alloc, relation, raw, &left, &right),
    }
}
