//! Element-wise comparisons of slices.

ghost use Rattle.std.specs.Prelude.{◌≡◌, ℕ, ◌<◌, ◌≤◌, false, ◌&&◌, map, length};
ghost use Rattle.std.specs.Prelude.{MatchResult};
ghost use Rattle.std.specs.Simd.Lanes.{zip2};
ghost use Rattle.polars_arrays_words.specs.Bits.{first_of, is_bit};
ghost use Rattle.polars_arrays_bits.specs.Errors.{IsMemory};

use crate::bitmap::Bitmap;
use crate::error::ComputeError;
use crate::mutable_bitmap::MutableBitmap;
use polars_arrays_numbers::comparison::Comparison;
use polars_arrays_words::packing::{TruthValues, pack_few};
use std::alloc::Global;

/// The element-wise comparison of two slices of equal length: truth value `i` is the result of
/// comparing `left[i]` with `right[i]`.
#[derive(Drop)]
pub struct SlicePairs<'a, L, R, E> {
    pub comparison: &'a E,
    pub left: &'a [L],
    pub right: &'a [R],
    pub ghost one_length: { length right.now ≡ length left.now },
}

impl<'a, L: Copy, R: Copy, E: Comparison<L, R>> TruthValues for SlicePairs<'a, L, R, E> {
    ghost values = { λ p. zip2 (E.holds p.comparison.now) p.left.now p.right.now };

    #[inline(always)]
    fn len(&self) -> usize {
        self.left.len()
    }

    #[inline(always)]
    fn value(&self, i: usize) -> bool {
        let left = self.left;
        let right = self.right;
        self.comparison.compare(left[i], right[i])
    }

    #[inline(always)]
    fn packs_in_registers(&self) -> bool {
        self.comparison.packs_in_registers()
    }
}

/// Compares two slices of equal length, element by element. Bit `i` of the result is true if the
/// comparison holds for `left[i]` and `right[i]`. The error is `Memory`.
pub fn compare_pairs<L: Copy, R: Copy, E: Comparison<L, R>>(
    alloc: Global,
    comparison: &E,
    left: &[L],
    right: &[R],
) -> Result<Bitmap, ComputeError>
    requires { length right.now ≡ length left.now }
    ensures { MatchResult result
        (λ bits. bits ≡ zip2 (E.holds comparison.now) left.now right.now) IsMemory }
{
    Bitmap::from_values(
        alloc,
        &SlicePairs {
            comparison,
            left,
            right,
        },
    )
}

/// Compares two slices of equal length and at most 64 elements, element by element. Bit `i` of the
/// returned word is 1 if the comparison holds for `left[i]` and `right[i]`. The bits above the last
/// element are 0. Does not allocate.
#[inline(always)]
pub fn compare_few<L: Copy, R: Copy, E: Comparison<L, R>>(
    comparison: &E,
    left: &[L],
    right: &[R],
) -> u64
    requires one_length { length right.now ≡ length left.now }
    requires few { length left.now ≤ 64 }
    ensures bits { first_of (is_bit result) (length left.now)
        ≡ zip2 (E.holds comparison.now) left.now right.now }
    ensures rest { (i : ℕ) → length left.now ≤ i → i < 64 → is_bit result i ≡ false }
{
    pack_few(
        &SlicePairs {
            comparison,
            left,
            right,
        },
        0,
        left.len(),
    )
}

/// Sets each bit of `bits` to its AND with the result of comparing the elements of `left` and
/// `right` at the same index. Does not allocate.
pub fn and_pairs<L: Copy, R: Copy, E: Comparison<L, R>>(
    bits: &mut MutableBitmap,
    comparison: &E,
    left: &[L],
    right: &[R],
)
    requires one_length { length right.now ≡ length left.now }
    requires as_many { length left.now ≡ length bits.old }
    ensures { bits.new ≡ zip2 ◌&&◌ bits.old (zip2 (E.holds comparison.now) left.now right.now) }
{
    bits.and_assign_values(&SlicePairs {
        comparison,
        left,
        right,
    });
}

// The comparison of each element of `left` with the single element `right`.
#[derive(Drop)]
struct Against<'a, L, R, E> {
    comparison: &'a E,
    left: &'a [L],
    right: R,
}

impl<'a, L: Copy, R: Copy, E: Comparison<L, R>> TruthValues for Against<'a, L, R, E> {
    ghost values = { λ a. map (λ l. E.holds a.comparison.now l a.right) a.left.now };

    #[inline(always)]
    fn len(&self) -> usize {
        self.left.len()
    }

    #[inline(always)]
    fn value(&self, i: usize) -> bool {
        self.comparison.compare(self.left[i], self.right)
    }

    #[inline(always)]
    fn packs_in_registers(&self) -> bool {
        self.comparison.packs_in_registers()
    }
}

/// Compares each element of a slice with `right`. Bit `i` of the result is true if the comparison
/// holds for `left[i]` and `right`. The error is `Memory`.
pub fn compare_constant<L: Copy, R: Copy, E: Comparison<L, R>>(
    alloc: Global,
    comparison: &E,
    left: &[L],
    right: R,
) -> Result<Bitmap, ComputeError>
    ensures { MatchResult result
        (λ bits. bits ≡ map (λ l. E.holds comparison.now l right) left.now) IsMemory }
{
    Bitmap::from_values(
        alloc,
        &Against {
            comparison,
            left,
            right,
        },
    )
}
