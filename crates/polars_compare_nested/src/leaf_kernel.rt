//! The trait `LeafKernel`: comparisons of leaves that are counted.

ghost use Rattle.std.specs.Prelude.{◌≡◌, ◌+◌, ◌≤◌, ℕ, Bool, IsTrue, length, IfOk, MatchResult};
ghost use Rattle.polars_arrays_bits.specs.Errors.{IsMemory};
ghost use Rattle.polars_arrays_flat.specs.Row.{Row};
ghost use Rattle.polars_arrays_nested.specs.Types.{type_of};
ghost use Rattle.polars_compare_leaves.specs.Sameness.{same_leaf};
ghost use Rattle.polars_compare_nested.specs.Bits.{JoinsLeafBits, LeafBit, LeafBits, LeafWord};
ghost use Rattle.polars_compare_nested.specs.Leaf.{is_leaf};
ghost use Rattle.polars_compare_nested.specs.Windows.{AreWindows};

use crate::joined_leaves::and_leaf_windows;
use crate::leaf_rows::leaf_rows;
use crate::leaf_windows::eq_leaves;
use crate::leaf_words::leaf_word;
use polars_arrays_bits::bit_mask::BitMask;
use polars_arrays_bits::bitmap::Bitmap;
use polars_arrays_bits::error::ComputeError;
use polars_arrays_bits::mutable_bitmap::MutableBitmap;
use polars_arrays_nested::any_array::AnyArray;
use polars_arrays_numbers::steps::Steps;
use std::alloc::Global;

/// A comparison of stored leaves (numbers, truth values, byte strings and texts) that counts the
/// leaves it compares. Two leaves agree if the comparison says so. Comparisons of nested arrays
/// compare leaves only by this trait.
///
/// The counter `Steps` implements it: two leaves agree if they are equal. For this reason,
/// parameters that implement this trait are named `steps`.
pub trait LeafKernel {
    // True for two leaf rows that agree.
    ghost agree: { Row → Row → Bool };

    // The number of comparisons counted.
    ghost count: { Self → ℕ };

    /// Returns a bit for each `i` below `n`: 1 if row `a + i` of the left array and row `b + i` of
    /// the right one agree. If a row is masked on either side, the bit is arbitrary. The count
    /// increases by `n`. The error is `Memory`; the count may have increased by then.
    fn leaf_eq(
        &mut self,
        alloc: Global,
        left: &AnyArray,
        a: usize,
        right: &AnyArray,
        b: usize,
        n: usize,
    ) -> Result<Bitmap, ComputeError>
        requires leaves { IsTrue (is_leaf (type_of left.now)) }
        requires windows { AreWindows left.now a right.now b n }
        ensures told { MatchResult result (LeafBits agree left.now a right.now b n) IsMemory }
        ensures counted { IfOk result (λ _. count self.new ≡ count self.old + n) }
        ensures kept { count self.old ≤ count self.new };

    /// Returns a word whose bit `i` is 1 if row `a + i` of the left array and row `b + i` of the
    /// right one agree, for each `i` below `n`, which is at most 64. If a row is masked on either
    /// side, the bit is arbitrary. The count increases by `n`. The error is `Memory`; the count may
    /// have increased by then. The default allocates a bitmap; an implementation that needs no
    /// memory may override it.
    fn leaf_word_eq(
        &mut self,
        alloc: Global,
        left: &AnyArray,
        a: usize,
        right: &AnyArray,
        b: usize,
        n: usize,
    ) -> Result<u64, ComputeError>
        requires leaves { IsTrue (is_leaf (type_of left.now)) }
        requires windows { AreWindows left.now a right.now b n }
        requires few { n ≤ 64 }
        ensures told { MatchResult result (LeafWord agree left.now a right.now b n) IsMemory }
        ensures counted { IfOk result (λ _. count self.new ≡ count self.old + n) }
        ensures kept { count self.old ≤ count self.new }
    {
        let bits = self.leaf_eq(alloc, left, a, right, b, n)?;
        Ok(BitMask::from_bitmap(&bits).few_bits(0, n))
    }

    /// Clears each bit `i` of `bits` for which row `a + i` of the left array and row `b + i` of the
    /// right one don't agree. If a row is masked on either side, a bit of 1 may become 0 or stay 1.
    /// The count increases by the number of bits. The error is `Memory`; the count may have
    /// increased by then. The default allocates a bitmap; an implementation that needs none may
    /// override it.
    fn leaf_and_eq(
        &mut self,
        alloc: Global,
        bits: &mut MutableBitmap,
        left: &AnyArray,
        a: usize,
        right: &AnyArray,
        b: usize,
    ) -> Result<(), ComputeError>
        requires leaves { IsTrue (is_leaf (type_of left.now)) }
        requires windows { AreWindows left.now a right.now b (length bits.old) }
        ensures told { MatchResult result
            (λ _. JoinsLeafBits agree left.now a right.now b bits.old bits.new) IsMemory }
        ensures counted { IfOk result (λ _. count self.new ≡ count self.old + length bits.old) }
        ensures kept { count self.old ≤ count self.new }
    {
        let n = bits.len();
        let same = self.leaf_eq(alloc, left, a, right, b, n)?;
        bits.and_assign(&same);
        Ok(())
    }

    /// Returns whether leaf `a` of the left array and leaf `b` of the right one agree. If a row is
    /// masked on either side, the result is arbitrary. The count increases by 1. The error is
    /// `Memory`; the count may have increased by then. The default compares a window of one row
    /// into a bitmap; an implementation that needs no memory may override it.
    fn leaf_row_eq(
        &mut self,
        alloc: Global,
        left: &AnyArray,
        a: usize,
        right: &AnyArray,
        b: usize,
    ) -> Result<bool, ComputeError>
        requires leaves { IsTrue (is_leaf (type_of left.now)) }
        requires windows { AreWindows left.now a right.now b 1 }
        ensures told { MatchResult result (LeafBit agree left.now a right.now b) IsMemory }
        ensures counted { IfOk result (λ _. count self.new ≡ count self.old + 1) }
        ensures kept { count self.old ≤ count self.new }
    {
        let bits = self.leaf_eq(alloc, left, a, right, b, 1)?;
        Ok(bits.get_bit(0))
    }
}

impl LeafKernel for Steps {
    ghost agree = { same_leaf };

    ghost count = { λ steps. steps };

    fn leaf_eq(
        &mut self,
        alloc: Global,
        left: &AnyArray,
        a: usize,
        right: &AnyArray,
        b: usize,
        n: usize,
    ) -> Result<Bitmap, ComputeError> {
        let bits = eq_leaves(alloc, left, a, right, b, n)?;
        self.add(n);
        Ok(bits)
    }

    #[inline(always)]
    fn leaf_word_eq(
        &mut self,
        alloc: Global,
        left: &AnyArray,
        a: usize,
        right: &AnyArray,
        b: usize,
        n: usize,
    ) -> Result<u64, ComputeError> {
        let word = leaf_word(alloc, left, a, right, b, n)?;
        self.add(n);
        Ok(word)
    }

    fn leaf_and_eq(
        &mut self,
        alloc: Global,
        bits: &mut MutableBitmap,
        left: &AnyArray,
        a: usize,
        right: &AnyArray,
        b: usize,
    ) -> Result<(), ComputeError> {
        let n = bits.len();
        and_leaf_windows(alloc, bits, left, a, right, b)?;
        self.add(n);
        Ok(())
    }

    // Never fails, since it does not allocate.
    #[inline(always)]
    fn leaf_row_eq(
        &mut self,
        _alloc: Global,
        left: &AnyArray,
        a: usize,
        right: &AnyArray,
        b: usize,
    ) -> Result<bool, ComputeError> {
        self.add(1);
        Ok(leaf_rows(left, a, right, b))
    }
}
