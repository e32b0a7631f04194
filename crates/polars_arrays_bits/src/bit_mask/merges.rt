//! Equality and inequality of rows that may be null: combines raw comparisons with the present rows
//! of both sides, a word at a time.

ghost use Rattle.std.specs.Prelude.{◌≡◌, Bool, length, MatchResult};
ghost use Rattle.polars_arrays_words.specs.Bits.{first_of, zip3};
ghost use Rattle.polars_arrays_words.specs.Logic.{merged_eq, merged_ne};
ghost use Rattle.polars_arrays_bits.specs.Errors.{IsMemory};

use super::BitMask;
use crate::bitmap::Bitmap;
use crate::error::ComputeError;
use polars_arrays_words::operators::{MergeEq, MergeNe, Merged, TernaryOperator};
use polars_arrays_words::packing::{Packed, TruthValues};
use polars_arrays_words::source::{Aligned, BitSource, Placed, Shifted};
use std::alloc::Global;

impl BitMask<'_> {
    // Applies the operator at each index to the bits of this window, `left` and `right`, in this
    // order. The error is `Memory`.
    fn merge<O: TernaryOperator>(
        &self,
        alloc: Global,
        left: &BitMask<'_>,
        right: &BitMask<'_>,
        operator: O,
    ) -> Result<Bitmap, ComputeError>
        requires left { length left.now ≡ length self.now }
        requires right { length right.now ≡ length self.now }
        ensures { MatchResult result
            (λ bits. bits ≡ zip3 O.bit self.now left.now right.now) IsMemory }
    {
        let words = self.words;
        if self.at == 0 {
            return left.merge_last_two(alloc, operator, Aligned { words }, right);
        }
        let by = self.at;
        left.merge_last_two(alloc, operator, Shifted { words, by }, right)
    }

    // Applies the operator at each index to the bits of `first`, this window and `third`, in this
    // order. The error is `Memory`.
    fn merge_last_two<O: TernaryOperator, A: BitSource + Drop>(
        &self,
        alloc: Global,
        operator: O,
        first: A,
        third: &BitMask<'_>,
    ) -> Result<Bitmap, ComputeError>
        requires { length third.now ≡ length self.now }
        ensures { MatchResult result
            (λ bits. bits
            ≡ zip3 O.bit (first_of (A.bit first) (length self.now)) self.now third.now) IsMemory }
    {
        let words = self.words;
        if self.at == 0 {
            return third.merge_last(alloc, operator, first, Aligned { words });
        }
        let by = self.at;
        third.merge_last(alloc, operator, first, Shifted { words, by })
    }

    // Applies the operator at each index to the bits of `first`, `second` and this window, in this
    // order. The error is `Memory`.
    fn merge_last<O: TernaryOperator, A: BitSource + Drop, B: BitSource + Drop>(
        &self,
        alloc: Global,
        operator: O,
        first: A,
        second: B,
    ) -> Result<Bitmap, ComputeError>
        ensures { MatchResult result
            (λ bits. bits ≡ zip3 O.bit (first_of (A.bit first) (length self.now))
            (first_of (B.bit second) (length self.now)) self.now) IsMemory }
    {
        let words = self.words;
        if self.at == 0 {
            let third = Aligned { words };
            let source = Merged {
                operator,
                first,
                second,
                third,
            };
            return Bitmap::from_source(alloc, &source, self.len);
        }
        let by = self.at;
        let third = Shifted { words, by };
        let source = Merged {
            operator,
            first,
            second,
            third,
        };
        Bitmap::from_source(alloc, &source, self.len)
    }

    // Applies the operator at each index to the bits of `first`, this window and `third`, in this
    // order. The same loop serves windows that begin at any bit of a word. The error is `Memory`.
    fn merge_placed<O: TernaryOperator, A: BitSource + Drop>(
        &self,
        alloc: Global,
        operator: O,
        first: A,
        third: &BitMask<'_>,
    ) -> Result<Bitmap, ComputeError>
        requires { length third.now ≡ length self.now }
        ensures { MatchResult result
            (λ bits. bits
            ≡ zip3 O.bit (first_of (A.bit first) (length self.now)) self.now third.now) IsMemory }
    {
        let second = Placed {
            words: self.words,
            by: self.at,
        };
        let third = Placed {
            words: third.words,
            by: third.at,
        };
        let source = Merged {
            operator,
            first,
            second,
            third,
        };
        Bitmap::from_source(alloc, &source, self.len)
    }

    /// Returns for each row whether the left and the right side are equal. Null is equal only to
    /// null. `q` says for each row whether the stored values are equal. `l` and `r` are the masks
    /// of the left and the right side. Computes `(q & l & r) | !(l | r)`. The error is `Memory`.
    pub fn merge_eq(
        alloc: Global,
        q: &BitMask<'_>,
        l: &BitMask<'_>,
        r: &BitMask<'_>,
    ) -> Result<Bitmap, ComputeError>
        requires left { length l.now ≡ length q.now }
        requires right { length r.now ≡ length q.now }
        ensures { MatchResult result (λ bits. bits ≡ zip3 merged_eq q.now l.now r.now) IsMemory }
    {
        q.merge(alloc, l, r, MergeEq)
    }

    /// Returns for each row whether the left and the right side differ. Null is equal only to null.
    /// `q` says for each row whether the stored values differ. `l` and `r` are the masks of the
    /// left and the right side. Computes `(q & l & r) | (l ^ r)`. The error is `Memory`.
    pub fn merge_ne(
        alloc: Global,
        q: &BitMask<'_>,
        l: &BitMask<'_>,
        r: &BitMask<'_>,
    ) -> Result<Bitmap, ComputeError>
        requires left { length l.now ≡ length q.now }
        requires right { length r.now ≡ length q.now }
        ensures { MatchResult result (λ bits. bits ≡ zip3 merged_ne q.now l.now r.now) IsMemory }
    {
        q.merge(alloc, l, r, MergeNe)
    }

    /// Returns for each row whether the two sides are equal, like `merge_eq`. The truth values of
    /// `q` say which stored values are equal; they are not packed yet. Each word is combined with
    /// the masks `l` and `r` as soon as it is packed, so `q` needs no bitmap. The error is
    /// `Memory`.
    pub fn merge_eq_values<V: TruthValues>(
        alloc: Global,
        q: &V,
        l: &BitMask<'_>,
        r: &BitMask<'_>,
    ) -> Result<Bitmap, ComputeError>
        requires left { length l.now ≡ length (V.values q.now) }
        requires right { length r.now ≡ length (V.values q.now) }
        ensures { MatchResult result
            (λ bits. bits ≡ zip3 merged_eq (V.values q.now) l.now r.now) IsMemory }
    {
        l.merge_placed(alloc, MergeEq, Packed { values: q }, r)
    }

    /// Returns for each row whether the two sides differ, like `merge_ne`. The truth values of `q`
    /// say which stored values differ; they are not packed yet. Each word is combined with the
    /// masks `l` and `r` as soon as it is packed, so `q` needs no bitmap. The error is `Memory`.
    pub fn merge_ne_values<V: TruthValues>(
        alloc: Global,
        q: &V,
        l: &BitMask<'_>,
        r: &BitMask<'_>,
    ) -> Result<Bitmap, ComputeError>
        requires left { length l.now ≡ length (V.values q.now) }
        requires right { length r.now ≡ length (V.values q.now) }
        ensures { MatchResult result
            (λ bits. bits ≡ zip3 merged_ne (V.values q.now) l.now r.now) IsMemory }
    {
        l.merge_placed(alloc, MergeNe, Packed { values: q }, r)
    }
}
