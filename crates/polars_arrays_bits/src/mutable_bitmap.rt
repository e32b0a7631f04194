//! Mutable lists of packed truth values.

ghost use Rattle.std.specs.Prelude.{◌≡◌, ℕ, ◌*◌, ◌^◌, ◌<◌, ◌≤◌, Bool, false, true, ◌&&◌, ◌||◌};
ghost use Rattle.std.specs.Prelude.{length, count_by, get_or, replicate, slice_get, slice_set};
ghost use Rattle.std.specs.Prelude.{vec_len, MatchResult};
ghost use Rattle.std.specs.Simd.Lanes.{zip2};
ghost use Rattle.polars_arrays_words.specs.Bits.{first_of, window, zip3};
ghost use Rattle.polars_arrays_words.specs.Logic.{or_not, merged_eq, merged_ne};
ghost use Rattle.polars_arrays_bits.specs.Errors.{IsMemory};

use crate::bit_mask::BitMask;
use crate::bitmap::Bitmap;
use crate::error::ComputeError;
use polars_arrays_words::changes::{
    JoinedWith, MergedWith, WordChange, change_inner_words, change_words,
};
use polars_arrays_words::operators::{
    And, BinaryOperator, MergeEq, MergeNe, Or, OrNot, TernaryOperator,
};
use polars_arrays_words::packing::{Packed, TruthValues};
use polars_arrays_words::source::{Aligned, BitSource, Shifted, collect_words, count_window};
use polars_arrays_words::words::{WORD_BITS, bit_from, filled_word};
use polars_arrays_words::write::write_bit;
use std::alloc::Global;
use std::marker::Model;

/// A list of truth values, packed into 64-bit words, whose bits can be written.
#[derive(Drop)]
pub struct MutableBitmap {
    // bits from `len` on are arbitrary
    words: Vec<u64>,
    len: usize,
}

impl Model for MutableBitmap {
    ghost use Rattle.std.specs.Prelude.{◌*◌, ◌≤◌, Bool, List, length};
    ghost use Rattle.polars_arrays_words.specs.Bits.{window};

    ghost Value = { List Bool };

    ghost view = { λ b. window 0 b.len b.words.items };

    ghost invariant = { λ b. b.len ≤ 64 * length b.words.items };
}

impl MutableBitmap {
    // Creates a bitmap of `n` bits that are all `value`. The error is `Memory`.
    #[inline]
    fn filled(alloc: Global, value: bool, n: usize) -> Result<MutableBitmap, ComputeError>
        ensures { MatchResult result (λ bits. bits ≡ replicate n value) IsMemory }
    {
        let words = vec![in alloc; filled_word(value); n.div_ceil(WORD_BITS)]?;
        Ok(MutableBitmap { words, len: n })
    }

    /// Creates a bitmap of `n` false bits. The error is `Memory`.
    pub fn from_len_zeroed(alloc: Global, n: usize) -> Result<MutableBitmap, ComputeError>
        ensures { MatchResult result (λ bits. bits ≡ replicate n false) IsMemory }
    {
        MutableBitmap::filled(alloc, false, n)
    }

    /// Creates a bitmap of `n` true bits. The error is `Memory`.
    pub fn from_len_set(alloc: Global, n: usize) -> Result<MutableBitmap, ComputeError>
        ensures { MatchResult result (λ bits. bits ≡ replicate n true) IsMemory }
    {
        MutableBitmap::filled(alloc, true, n)
    }

    // Creates a bitmap of the first `len` bits of a source. The error is `Memory`.
    pub(crate) fn from_source<S: BitSource>(
        alloc: Global,
        source: &S,
        len: usize,
    ) -> Result<MutableBitmap, ComputeError>
        ensures { MatchResult result (λ bits. bits ≡ first_of (S.bit source.now) len) IsMemory }
    {
        let words = collect_words(alloc, source, len.div_ceil(WORD_BITS))?;
        Ok(MutableBitmap { words, len })
    }

    // Creates a bitmap of the first `len` bits of `words`. Bit 0 is the lowest bit of the first
    // word.
    pub(crate) fn from_vec(words: Vec<u64>, len: usize) -> MutableBitmap
        requires { len ≤ 64 * vec_len words }
        ensures { result ≡ window 0 len words.items }
    {
        MutableBitmap { words, len }
    }

    /// Returns the number of bits.
    pub fn len(&self) -> usize
        ensures { result ≡ length self.now }
    {
        self.len
    }

    /// Returns bit `i`.
    pub fn get(&self, i: usize) -> bool
        requires { i < length self.now }
        ensures { slice_get self.now i ≡ Some result }
    {
        bit_from(self.words.as_slice(), 0, i)
    }

    /// Sets bit `i` to `value`.
    pub fn set(&mut self, i: usize, value: bool)
        requires { i < length self.old }
        ensures { self.new ≡ slice_set self.old i value }
    {
        write_bit(self.words.as_mut_slice(), i, value);
    }

    /// Returns the number of true bits.
    pub fn set_bits(&self) -> usize
        ensures { result ≡ count_by (λ b. b) self.now }
    {
        count_window(self.words.as_slice(), 0, self.len)
    }

    // Sets each bit to the result of `change` for the index of the bit and its old value.
    fn change<C: WordChange>(&mut self, change: &C)
        ensures { self.new
            ≡ first_of (λ i. C.bit change.now i (get_or self.old i false)) (length self.old) }
    {
        let count = self.len.div_ceil(WORD_BITS);
        let inner = change.inner_words().min(count);
        let words = self.words.as_mut_slice();
        change_inner_words(words, change, inner);
        change_words(words, change, inner, count);
    }

    // Sets each bit to the operator's result for the bit itself and the source's bit at the same
    // index.
    fn assign<O: BinaryOperator, S: BitSource + Drop>(&mut self, operator: O, source: S)
        ensures { self.new ≡ zip2 O.bit self.old (first_of (S.bit source) (length self.old)) }
    {
        self.change(&JoinedWith { operator, source });
    }

    // Sets each bit to the operator's result for the bit itself and the bits of `left` and `right`
    // at the same index.
    fn assign_both<O: TernaryOperator, A: BitSource + Drop, B: BitSource + Drop>(
        &mut self,
        operator: O,
        left: A,
        right: B,
    )
        ensures { self.new ≡ zip3 O.bit self.old (first_of (A.bit left) (length self.old))
            (first_of (B.bit right) (length self.old)) }
    {
        self.change(&MergedWith {
            operator,
            left,
            right,
        });
    }

    // Sets each bit to the operator's result for the bit itself and the bit of `other` at the same
    // index.
    fn join<O: BinaryOperator>(&mut self, operator: O, other: &BitMask<'_>)
        requires { length other.now ≡ length self.old }
        ensures { self.new ≡ zip2 O.bit self.old other.now }
    {
        let (words, by) = other.packed();
        if by == 0 {
            self.assign(operator, Aligned { words });
        } else {
            self.assign(operator, Shifted { words, by });
        }
    }

    // Sets each bit to the operator's result for the bit itself and the bits of the windows `left`
    // and `right` at the same index.
    fn merge<O: TernaryOperator>(&mut self, operator: O, left: &BitMask<'_>, right: &BitMask<'_>)
        requires left { length left.now ≡ length self.old }
        requires right { length right.now ≡ length self.old }
        ensures { self.new ≡ zip3 O.bit self.old left.now right.now }
    {
        let (words, by) = left.packed();
        if by == 0 {
            self.merge_last(operator, Aligned { words }, right);
        } else {
            self.merge_last(operator, Shifted { words, by }, right);
        }
    }

    // Sets each bit to the operator's result for the bit itself, the bit of the source `left` and
    // the bit of the window `right` at the same index.
    fn merge_last<O: TernaryOperator, A: BitSource + Drop>(
        &mut self,
        operator: O,
        left: A,
        right: &BitMask<'_>,
    )
        requires { length right.now ≡ length self.old }
        ensures { self.new
            ≡ zip3 O.bit self.old (first_of (A.bit left) (length self.old)) right.now }
    {
        let (words, by) = right.packed();
        if by == 0 {
            self.assign_both(operator, left, Aligned { words });
        } else {
            self.assign_both(operator, left, Shifted { words, by });
        }
    }

    /// Sets each bit to its OR with the bit of `other` at the same index.
    pub fn or_assign(&mut self, other: &MutableBitmap)
        requires { length other.now ≡ length self.old }
        ensures { self.new ≡ zip2 ◌||◌ self.old other.now }
    {
        let words = other.words.as_slice();
        self.assign(Or, Aligned { words });
    }

    /// Sets each bit to its AND with the bit of `other` at the same index.
    pub fn and_assign(&mut self, other: &Bitmap)
        requires { length other.now ≡ length self.old }
        ensures { self.new ≡ zip2 ◌&&◌ self.old other.now }
    {
        self.and_assign_mask(&BitMask::from_bitmap(other));
    }

    /// Sets each bit to its AND with the bit of the window `other` at the same index.
    pub fn and_assign_mask(&mut self, other: &BitMask<'_>)
        requires { length other.now ≡ length self.old }
        ensures { self.new ≡ zip2 ◌&&◌ self.old other.now }
    {
        self.join(And, other);
    }

    /// Sets each bit to its AND with the truth value at the same index. Packs and combines 64
    /// values at a time.
    pub fn and_assign_values<V: TruthValues>(&mut self, values: &V)
        requires { length (V.values values.now) ≡ length self.old }
        ensures { self.new ≡ zip2 ◌&&◌ self.old (V.values values.now) }
    {
        self.assign(And, Packed { values });
    }

    /// Sets each bit to `bit | !b`, where `b` is the bit of the window `other` at the same index.
    pub fn or_not_assign_mask(&mut self, other: &BitMask<'_>)
        requires { length other.now ≡ length self.old }
        ensures { self.new ≡ zip2 or_not self.old other.now }
    {
        self.join(OrNot, other);
    }

    /// Finds the equal rows of two sides. Null is equal only to null. Before the call, the bits say
    /// which rows have equal stored values; afterwards, which rows are equal. `left` and `right`
    /// are the masks of the two sides. Each bit `q` becomes `(q & l & r) | !(l | r)`, where `l` and
    /// `r` are the bits of `left` and `right`.
    pub fn merge_eq_assign(&mut self, left: &BitMask<'_>, right: &BitMask<'_>)
        requires left { length left.now ≡ length self.old }
        requires right { length right.now ≡ length self.old }
        ensures { self.new ≡ zip3 merged_eq self.old left.now right.now }
    {
        self.merge(MergeEq, left, right);
    }

    /// Finds the unequal rows of two sides. Null is equal only to null. Before the call, the bits
    /// say which rows have unequal stored values; afterwards, which rows are unequal. `left` and
    /// `right` are the masks of the two sides. Each bit `q` becomes `(q & l & r) | (l ^ r)`, where
    /// `l` and `r` are the bits of `left` and `right`.
    pub fn merge_ne_assign(&mut self, left: &BitMask<'_>, right: &BitMask<'_>)
        requires left { length left.now ≡ length self.old }
        requires right { length right.now ≡ length self.old }
        ensures { self.new ≡ zip3 merged_ne self.old left.now right.now }
    {
        self.merge(MergeNe, left, right);
    }

    /// Converts to an immutable bitmap of the same bits. No word is copied.
    pub fn freeze(self) -> Bitmap
        ensures { result ≡ self }
    {
        let MutableBitmap { words, len } = self;
        Bitmap::from_vec(words, len)
    }
}
