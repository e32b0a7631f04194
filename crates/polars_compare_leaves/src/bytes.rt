//! Comparisons of stored byte strings. Validities are not read.

ghost use Rattle.std.specs.Prelude.{◌≡◌, ◌+◌, ◌-◌, ◌^◌, ◌<◌, ◌≤◌, Bool, length, map, take};
ghost use Rattle.std.specs.Prelude.{MatchResult};
ghost use Rattle.std.specs.Simd.Lanes.{zip2};
ghost use Rattle.polars_arrays_bits.specs.Errors.{IsMemory};
ghost use Rattle.polars_arrays_flat.specs.Row.{Row, Bytes};
ghost use Rattle.polars_arrays_flat.specs.StoredRows.{byte_slots};
ghost use Rattle.polars_arrays_flat.specs.Validity.{window};
ghost use Rattle.polars_compare_leaves.specs.Order.{row_at_least, row_at_most, row_greater};
ghost use Rattle.polars_compare_leaves.specs.Order.{row_less};
ghost use Rattle.polars_compare_leaves.specs.Sameness.{other_row, same_row};

use polars_arrays_bits::bitmap::Bitmap;
use polars_arrays_bits::error::ComputeError;
use polars_arrays_bits::packing::TruthValues;
use polars_arrays_flat::byte_blocks::{
    BLOCK_BYTES, beginning_equals_block, beginnings_equal, beginnings_less, block_of, lowest_ones,
};
use polars_arrays_flat::byte_equality::bytes_equal;
use polars_arrays_flat::byte_order::bytes_less;
use polars_arrays_flat::byte_rows::ByteRows;
use polars_arrays_numbers::comparison::{
    Equal, Greater, GreaterOrEqual, Less, LessOrEqual, Unequal,
};
use std::alloc::Global;

/// A comparison of two byte strings: `Equal`, `Unequal`, `Less`, `LessOrEqual`, `Greater` or
/// `GreaterOrEqual`. Byte strings are ordered lexicographically.
pub trait ByteComparison {
    // The comparison as a relation of two rows.
    ghost rows: { Row → Row → Bool };

    /// Returns whether the comparison holds for `left` and `right`.
    fn compare(&self, left: &[u8], right: &[u8]) -> bool
        ensures { result ≡ rows (Bytes left.now) (Bytes right.now) };

    /// Returns whether the comparison holds for `left` and `right`, like `compare`. Loops that
    /// compare many left strings with one right string call this method, since it may be faster
    /// there. The default calls `compare`.
    #[inline(always)]
    fn compare_constant(&self, left: &[u8], right: &[u8]) -> bool
        ensures { result ≡ rows (Bytes left.now) (Bytes right.now) }
    {
        self.compare(left, right)
    }

    /// Returns whether the comparison holds for the first `n` bytes of `left` and the first `m`
    /// bytes of `right`. The bytes after these don't change the result, but may save time: if `n`
    /// and `m` are at most 16 and both slices have at least 16 bytes, each side is loaded as one
    /// block of 16 bytes.
    fn compare_beginnings(&self, left: &[u8], n: usize, right: &[u8], m: usize) -> bool
        requires left_in { n ≤ length left.now }
        requires right_in { m ≤ length right.now }
        ensures { result ≡ rows (Bytes (take n left.now)) (Bytes (take m right.now)) };

    /// Returns whether the comparison holds for the first `n` bytes of `left` and the first `m`
    /// bytes of `block`. The lowest `m` bits of `inside` are 1, and all others are 0. Loops that
    /// compare many left strings with one short right string call this method, since it may be
    /// faster there. The default calls `compare_beginnings`.
    #[inline(always)]
    fn compare_block(&self, left: &[u8], n: usize, block: &[u8], m: usize, inside: u64) -> bool
        requires left_in { n ≤ length left.now }
        requires block_in { 16 ≤ length block.now }
        requires few { m ≤ 16 }
        requires inside { inside ≡ 2 ^ m - 1 }
        ensures { result ≡ rows (Bytes (take n left.now)) (Bytes (take m block.now)) }
    {
        let _ = inside;
        self.compare_beginnings(left, n, block, m)
    }
}

impl ByteComparison for Equal {
    ghost rows = { same_row };

    #[inline(always)]
    fn compare(&self, left: &[u8], right: &[u8]) -> bool {
        bytes_equal(left, right)
    }

    #[inline(always)]
    fn compare_constant(&self, left: &[u8], right: &[u8]) -> bool {
        left == right
    }

    #[inline(always)]
    fn compare_beginnings(&self, left: &[u8], n: usize, right: &[u8], m: usize) -> bool {
        beginnings_equal(left, n, right, m)
    }

    #[inline(always)]
    fn compare_block(&self, left: &[u8], n: usize, block: &[u8], m: usize, inside: u64) -> bool {
        beginning_equals_block(left, n, block, m, inside)
    }
}

impl ByteComparison for Unequal {
    ghost rows = { other_row };

    #[inline(always)]
    fn compare(&self, left: &[u8], right: &[u8]) -> bool {
        !bytes_equal(left, right)
    }

    #[inline(always)]
    fn compare_constant(&self, left: &[u8], right: &[u8]) -> bool {
        left != right
    }

    #[inline(always)]
    fn compare_beginnings(&self, left: &[u8], n: usize, right: &[u8], m: usize) -> bool {
        !beginnings_equal(left, n, right, m)
    }

    #[inline(always)]
    fn compare_block(&self, left: &[u8], n: usize, block: &[u8], m: usize, inside: u64) -> bool {
        !beginning_equals_block(left, n, block, m, inside)
    }
}

impl ByteComparison for Less {
    ghost rows = { row_less };

    #[inline(always)]
    fn compare(&self, left: &[u8], right: &[u8]) -> bool {
        bytes_less(left, right)
    }

    #[inline(always)]
    fn compare_beginnings(&self, left: &[u8], n: usize, right: &[u8], m: usize) -> bool {
        beginnings_less(left, n, right, m)
    }
}

impl ByteComparison for LessOrEqual {
    ghost rows = { row_at_most };

    #[inline(always)]
    fn compare(&self, left: &[u8], right: &[u8]) -> bool {
        !bytes_less(right, left)
    }

    #[inline(always)]
    fn compare_beginnings(&self, left: &[u8], n: usize, right: &[u8], m: usize) -> bool {
        !beginnings_less(right, m, left, n)
    }
}

impl ByteComparison for Greater {
    ghost rows = { row_greater };

    #[inline(always)]
    fn compare(&self, left: &[u8], right: &[u8]) -> bool {
        bytes_less(right, left)
    }

    #[inline(always)]
    fn compare_beginnings(&self, left: &[u8], n: usize, right: &[u8], m: usize) -> bool {
        beginnings_less(right, m, left, n)
    }
}

impl ByteComparison for GreaterOrEqual {
    ghost rows = { row_at_least };

    #[inline(always)]
    fn compare(&self, left: &[u8], right: &[u8]) -> bool {
        !bytes_less(left, right)
    }

    #[inline(always)]
    fn compare_beginnings(&self, left: &[u8], n: usize, right: &[u8], m: usize) -> bool {
        !beginnings_less(left, n, right, m)
    }
}

// The results of a comparison for each `i` below `n`: of byte string `a + i` of the left array and
// byte string `b + i` of the right one.
#[derive(Drop)]
struct StringPairs<'a, L: ByteRows, R: ByteRows, E> {
    comparison: &'a E,
    left: &'a L,
    a: usize,
    right: &'a R,
    b: usize,
    n: usize,
    ghost left_in: { a + n ≤ length (L.strings left.now) },
    ghost right_in: { b + n ≤ length (R.strings right.now) },
    ghost left_fits: { a + n < 2 ^ 64 },
    ghost right_fits: { b + n < 2 ^ 64 },
}

impl<'a, L: ByteRows, R: ByteRows, E: ByteComparison> TruthValues for StringPairs<'a, L, R, E> {
    ghost values = { λ p. zip2 E.rows (window p.a p.n (byte_slots (L.strings p.left.now)))
        (window p.b p.n (byte_slots (R.strings p.right.now))) };

    #[inline(always)]
    fn len(&self) -> usize {
        self.n
    }

    #[inline(always)]
    fn value(&self, i: usize) -> bool {
        let (left, n) = self.left.bytes_on(self.a + i);
        let (right, m) = self.right.bytes_on(self.b + i);
        self.comparison.compare_beginnings(left, n, right, m)
    }

    #[inline(always)]
    fn packs_in_registers(&self) -> bool {
        true
    }
}

/// Returns a bit for each `i` below `n`: 1 if the comparison holds for the stored byte string
/// `a + i` of the left array and the stored byte string `b + i` of the right one. The error is
/// `Memory`.
#[inline]
pub fn compare_byte_windows<L: ByteRows, R: ByteRows, E: ByteComparison>(
    alloc: Global,
    comparison: &E,
    left: &L,
    a: usize,
    right: &R,
    b: usize,
    n: usize,
) -> Result<Bitmap, ComputeError>
    requires left_in { a + n ≤ length (L.strings left.now) }
    requires right_in { b + n ≤ length (R.strings right.now) }
    ensures { MatchResult result (λ bits. bits ≡ zip2 E.rows
        (window a n (byte_slots (L.strings left.now)))
        (window b n (byte_slots (R.strings right.now)))) IsMemory }
{
    // For the proof: both lengths fit in 64 bits, so the indices don't overflow.
    let _left_count = left.count();
    let _right_count = right.count();
    let pairs = StringPairs {
        comparison,
        left,
        a,
        right,
        b,
        n,
    };
    Bitmap::from_values(alloc, &pairs)
}

// The results of a comparison of each byte string of an array with the byte string `right`.
#[derive(Drop)]
struct StringsAgainst<'a, L, E> {
    comparison: &'a E,
    left: &'a L,
    right: &'a [u8],
}

impl<'a, L: ByteRows, E: ByteComparison> TruthValues for StringsAgainst<'a, L, E> {
    ghost values = { λ a. map
        (λ row. E.rows row (Bytes a.right.now)) (byte_slots (L.strings a.left.now)) };

    #[inline(always)]
    fn len(&self) -> usize {
        self.left.count()
    }

    #[inline(always)]
    fn value(&self, i: usize) -> bool {
        self.comparison
            .compare_constant(self.left.bytes(i), self.right)
    }

    #[inline(always)]
    fn packs_in_registers(&self) -> bool {
        true
    }
}

// The results of a comparison of each byte string of an array with the first `m` bytes of `block`.
// The lowest `m` bits of `inside` are 1.
#[derive(Drop)]
struct StringsOnBlock<'a, L, E> {
    comparison: &'a E,
    left: &'a L,
    block: &'a [u8],
    m: usize,
    inside: u64,
    ghost block_in: { 16 ≤ length block.now },
    ghost few: { m ≤ 16 },
    ghost ones: { inside ≡ 2 ^ m - 1 },
}

impl<'a, L: ByteRows, E: ByteComparison> TruthValues for StringsOnBlock<'a, L, E> {
    ghost values = { λ s. map
        (λ row. E.rows row (Bytes (take s.m s.block.now))) (byte_slots (L.strings s.left.now)) };

    #[inline(always)]
    fn len(&self) -> usize {
        self.left.count()
    }

    #[inline(always)]
    fn value(&self, i: usize) -> bool {
        let (left, n) = self.left.bytes_on(i);
        self.comparison
            .compare_block(left, n, self.block, self.m, self.inside)
    }

    #[inline(always)]
    fn packs_in_registers(&self) -> bool {
        true
    }
}

/// Returns a bit for each stored row of `left`: 1 if the comparison holds for the row and the byte
/// string `right`. If `right` has at most 16 bytes, it is copied to a block of 16 bytes, so that it
/// is compared with a short row as one block. The error is `Memory`.
pub fn compare_bytes<L: ByteRows, E: ByteComparison>(
    alloc: Global,
    comparison: &E,
    left: &L,
    right: &[u8],
) -> Result<Bitmap, ComputeError>
    ensures { MatchResult result (λ bits. bits ≡ map (λ row. E.rows row (Bytes right.now))
        (byte_slots (L.strings left.now))) IsMemory }
{
    if right.len() > BLOCK_BYTES {
        let strings = StringsAgainst {
            comparison,
            left,
            right,
        };
        return Bitmap::from_values(alloc, &strings);
    }
    let block = block_of(right);
    let strings = StringsOnBlock {
        comparison,
        left,
        block: &block,
        m: right.len(),
        inside: lowest_ones(right.len()),
    };
    Bitmap::from_values(alloc, &strings)
}
