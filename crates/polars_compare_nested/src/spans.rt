//! Loops over lists with offsets of 32 or 64 bits. They test whether two lists match (have equally
//! many items, and are both present or empty), and whether the bits of all items of a list are set.
//! The offsets are passed as slices, beside the list array that they belong to.

ghost use Rattle.std.specs.Option.{option_copied};
ghost use Rattle.std.specs.Prelude.{◌≡◌, ℕ, ◌+◌, ◌-◌, ◌^◌, ◌<◌, ◌≤◌, ◌↔◌, ◌&&◌, IfSome, IsTrue};
ghost use Rattle.std.specs.Prelude.{Some, true, false, length};
ghost use Rattle.polars_arrays_bytes.specs.OffsetStrings.{place_at, places, row_count};
ghost use Rattle.polars_arrays_flat.specs.Validity.{is_present};
ghost use Rattle.polars_arrays_nested.specs.GoodParts.{IsGood};
ghost use Rattle.polars_arrays_nested.specs.Lengths.{len_of};
ghost use Rattle.polars_arrays_nested.specs.ListOffsets.{list_places, offset_at};
ghost use Rattle.polars_arrays_nested.specs.Parts.{list_offsets, list_validity};
ghost use Rattle.polars_arrays_nested.specs.Places.{place_or_zero};
ghost use Rattle.polars_arrays_nested.specs.declared.any_array.AnyArray.{List};
ghost use Rattle.polars_arrays_words.specs.Bits.{first_of, is_bit};
ghost use Rattle.polars_compare_nested.specs.Runs.{AddsRun, AreSpans, AreWithin, HaveWidth, IsSpan};
ghost use Rattle.polars_compare_nested.specs.Runs.{Match, TellMatches, all_lists, is_match};
ghost use Rattle.polars_compare_nested.specs.Runs.{lists_of_width, same_counts, span_between};
ghost use Rattle.polars_compare_nested.specs.Runs.{start_of};

use polars_arrays_bits::bit_mask::BitMask;
use polars_arrays_bits::bitmap::Bitmap;
use polars_arrays_bits::builder::BitmapBuilder;
use polars_arrays_bits::packing::{TruthValues, pack_few};
use polars_arrays_flat::array::Array;
use polars_arrays_nested::list::ListArray;
use polars_arrays_numbers::offset::Offset;
use polars_arrays_words::runs::word_set;
use polars_arrays_words::words::{WORD_BITS, low_bits};

// Returns offset `i` as an index, or 0 if it is negative.
#[inline(always)]
#[tactic(auto, using(crate::proofs::OffsetPlaces::places_of))]
fn place_of<O: Offset>(offsets: &[O], i: usize) -> usize
    requires { i < length offsets.now }
    ensures { result ≡ place_or_zero (place_at (places O.value offsets.now) i) }
{
    offsets[i].to_place().unwrap_or(0)
}

// Returns the index of the first item of list `i`, and its number of items.
#[inline(always)]
fn list_at<O: Offset>(offsets: &[O], i: usize) -> (usize, usize)
    requires within { i < row_count offsets.now }
    requires good { IsSpan (places O.value offsets.now) i }
    ensures start { result.0 ≡ start_of (places O.value offsets.now) i }
    ensures count { result.1 ≡ span_between (places O.value offsets.now) i }
{
    let (from, to) = (offsets[i].place(), offsets[i + 1].place());
    (from, to - from)
}

// A truth value for each `i` below `rows`: whether list `a + i` of the left array and list `b + i`
// of the right one have the same number of items.
#[derive(Drop)]
struct SameCounts<'m, L: Offset, R: Offset> {
    left: &'m [L],
    a: usize,
    right: &'m [R],
    b: usize,
    rows: usize,
    ghost left_in: { a + rows < length left.now },
    ghost right_in: { b + rows < length right.now },
    ghost left_good: { AreSpans (places L.value left.now) a rows },
    ghost right_good: { AreSpans (places R.value right.now) b rows },
    ghost left_fits: { a + rows < 2 ^ 64 },
    ghost right_fits: { b + rows < 2 ^ 64 },
}

impl<L: Offset, R: Offset> TruthValues for SameCounts<'_, L, R> {
    ghost values = { λ l. same_counts (places L.value l.left.now) l.a (places R.value l.right.now)
        l.b l.rows };

    #[inline(always)]
    fn len(&self) -> usize {
        self.rows
    }

    #[inline(always)]
    fn value(&self, i: usize) -> bool {
        let (_, count) = list_at(self.left, self.a + i);
        let (_, other) = list_at(self.right, self.b + i);
        count == other
    }
}

// A truth value for each of the `rows` lists from list `a` on: whether it has `width` items.
#[derive(Drop)]
struct ListsOfWidth<'m, O: Offset> {
    offsets: &'m [O],
    a: usize,
    rows: usize,
    width: usize,
    ghost within: { a + rows < length offsets.now },
    ghost good: { AreSpans (places O.value offsets.now) a rows },
    ghost fits: { a + rows < 2 ^ 64 },
}

impl<O: Offset> TruthValues for ListsOfWidth<'_, O> {
    ghost values = { λ l. lists_of_width (places O.value l.offsets.now) l.a l.rows l.width };

    #[inline(always)]
    fn len(&self) -> usize {
        self.rows
    }

    #[inline(always)]
    fn value(&self, i: usize) -> bool {
        let (_, count) = list_at(self.offsets, self.a + i);
        count == self.width
    }
}

/// Returns a word whose bit `i` is 1 if row `at + i` is present, for each `i` below `n`, which is
/// at most 64. Without a validity all rows are present.
#[inline(always)]
pub(crate) fn present_bits(validity: Option<&Bitmap>, at: usize, n: usize) -> u64
    requires within { IfSome (option_copied validity) (λ bits. at + n ≤ length bits) }
    requires few { n ≤ 64 }
    ensures { (i : ℕ) → i < n → is_bit result i
        ≡ is_present (option_copied validity.entry) (at + i) }
{
    match validity {
        Some(bits) => BitMask::from_bitmap(bits).few_bits(at, n),
        None => low_bits(n),
    }
}

// Returns a word whose bit `i` is 1 if list `a + i` of the left array and list `b + i` of the right
// one are both present, for each `i` below `n`, which is at most 64.
#[inline(always)]
fn both_present(left: &ListArray, a: usize, right: &ListArray, b: usize, n: usize) -> u64
    requires left_good { IsGood (List left.now) }
    requires right_good { IsGood (List right.now) }
    requires left_in { a + n ≤ len_of (List left.now) }
    requires right_in { b + n ≤ len_of (List right.now) }
    requires few { n ≤ 64 }
    ensures { (i : ℕ) → i < n → is_bit result i
        ≡ (is_present (list_validity left.now) (a + i)
        && is_present (list_validity right.now) (b + i)) }
{
    present_bits(left.validity(), a, n) & present_bits(right.validity(), b, n)
}

/// Returns a word whose bit `i` is 1 if list `a + i` of the left array and list `b + i` of the
/// right one match, for each `i` below `n`, which is at most 64. Two lists match if they have the
/// same number of items, and are both present or both empty.
// Compares all counts in one loop, and reads validities as words.
#[inline(always)]
pub(crate) fn matching_word<L: Offset, R: Offset>(
    left: &ListArray,
    left_offsets: &[L],
    a: usize,
    right: &ListArray,
    right_offsets: &[R],
    b: usize,
    n: usize,
) -> u64
    requires left_good { IsGood (List left.now) }
    requires right_good { IsGood (List right.now) }
    requires left_offsets { places L.value left_offsets.now ≡ list_places (list_offsets left.now) }
    requires right_offsets { places R.value right_offsets.now
        ≡ list_places (list_offsets right.now) }
    requires left_in { a + n ≤ len_of (List left.now) }
    requires right_in { b + n ≤ len_of (List right.now) }
    requires few { n ≤ 64 }
    ensures { TellMatches left.now a right.now b n result }
{
    // For the proof: the number of lists fits in 64 bits, so the sums don't overflow.
    let (_lists, _others) = (left.offsets().len(), right.offsets().len());
    let counts = SameCounts {
        left: left_offsets,
        a,
        right: right_offsets,
        b,
        rows: n,
    };
    let same = pack_few(&counts, 0, n);
    let present = both_present(left, a, right, b, n);
    if present == low_bits(n) {
        return same;
    }
    let empty = ListsOfWidth {
        offsets: left_offsets,
        a,
        rows: n,
        width: 0,
    };
    same & (present | pack_few(&empty, 0, n))
}

/// Returns the number of bits that are 1 before the first 0, from the lowest bit up, among the
/// first `n` bits of a word.
#[inline(always)]
pub(crate) fn leading_bits(word: u64, n: usize) -> usize
    requires { n ≤ 64 }
    ensures within { result ≤ n }
    ensures ones { (i : ℕ) → i < result → is_bit word i ≡ true }
    ensures end { result < n → is_bit word result ≡ false }
{
    (word.trailing_ones() as usize).min(n)
}

/// Returns the number of leading pairs of lists that match, at most `n`. Pair `i` is list `a + i`
/// of the left array and list `b + i` of the right one.
pub(crate) fn matching_rows<L: Offset, R: Offset>(
    left: &ListArray,
    left_offsets: &[L],
    a: usize,
    right: &ListArray,
    right_offsets: &[R],
    b: usize,
    n: usize,
) -> usize
    requires left_good { IsGood (List left.now) }
    requires right_good { IsGood (List right.now) }
    requires left_offsets { places L.value left_offsets.now ≡ list_places (list_offsets left.now) }
    requires right_offsets { places R.value right_offsets.now
        ≡ list_places (list_offsets right.now) }
    requires left_in { a + n ≤ len_of (List left.now) }
    requires right_in { b + n ≤ len_of (List right.now) }
    ensures within { result ≤ n }
    ensures matching { Match left.now a right.now b result }
    ensures longest { result < n → is_match left.now (a + result) right.now (b + result) ≡ false }
{
    // For the proof: the number of lists fits in 64 bits, so the sums don't overflow.
    let (_lists, _others) = (left.offsets().len(), right.offsets().len());
    let mut done = 0;
    while done < n {
        let count = (n - done).min(WORD_BITS);
        let word = matching_word(
            left,
            left_offsets,
            a + done,
            right,
            right_offsets,
            b + done,
            count,
        );
        let few = leading_bits(word, count);
        done += few;
        if few < count {
            return done;
        }
    }
    n
}

// A truth value for each of the `rows` lists from list `a` on: whether the bits of all its items
// are set. The first bit of `items` is that of item `first`, the first item of list `a`.
#[derive(Drop)]
struct ListBits<'m, 'a, O: Offset> {
    items: &'m BitMask<'a>,
    offsets: &'m [O],
    a: usize,
    first: usize,
    rows: usize,
    ghost within: { AreWithin (length items.now) (places O.value offsets.now) first a rows },
    ghost has_offsets: { a + rows < length offsets.now },
    ghost good: { AreSpans (places O.value offsets.now) a rows },
    ghost fits: { a + rows < 2 ^ 64 },
}

impl<O: Offset> TruthValues for ListBits<'_, '_, O> {
    ghost values = { λ l. all_lists l.items.now (places O.value l.offsets.now) l.first l.a l.rows };

    #[inline(always)]
    fn len(&self) -> usize {
        self.rows
    }

    #[inline(always)]
    fn value(&self, i: usize) -> bool {
        let (place, count) = list_at(self.offsets, self.a + i);
        self.items.all_set(place.saturating_sub(self.first), count)
    }

    // Packs truth values in registers. This is faster here, since each value is computed from more
    // than 64 bits: from two offsets and the bits between them.
    #[inline(always)]
    fn packs_in_registers(&self) -> bool {
        true
    }
}

// Returns whether each of `rows` lists from row `a` on has `width` items. Checks 64 lists at a
// time.
fn have_width<O: Offset>(offsets: &[O], a: usize, rows: usize, width: usize) -> bool
    requires within { a + rows < length offsets.now }
    requires good { AreSpans (places O.value offsets.now) a rows }
    ensures { IsTrue result ↔ HaveWidth (places O.value offsets.now) a rows width }
{
    // For the proof: there are fewer than 2^64 offsets, so the sums don't overflow.
    let _offsets = offsets.len();
    let mut done = 0;
    while done < rows {
        let count = (rows - done).min(WORD_BITS);
        let lists = ListsOfWidth {
            offsets,
            a: a + done,
            rows: count,
            width,
        };
        let alike = leading_bits(pack_few(&lists, 0, count), count);
        if alike < count {
            return false;
        }
        done += count;
    }
    true
}

// Returns the number of items of each of `rows` lists from row `a` on, if it is the same for all.
// Returns `None` otherwise, and also if there are fewer than 64 lists.
fn one_width<O: Offset>(offsets: &[O], a: usize, rows: usize) -> Option<usize>
    requires within { a + rows < length offsets.now }
    requires good { AreSpans (places O.value offsets.now) a rows }
    ensures alike { IfSome result (λ width. HaveWidth (places O.value offsets.now) a rows width) }
    ensures found { 64 ≤ rows
        → HaveWidth (places O.value offsets.now) a rows
        (span_between (places O.value offsets.now) a) → result
        ≡ Some (span_between (places O.value offsets.now) a) }
{
    if rows < WORD_BITS {
        return None;
    }
    let (_, width) = list_at(offsets, a);
    if have_width(offsets, a, rows, width) {
        Some(width)
    } else {
        None
    }
}

/// Appends a bit for each of `rows` lists from row `a` on: 1 if the bits of all its items are 1.
/// `items` has the bits of all items of these lists. If there are 64 lists or more, all with the
/// same number of items, their bits are read as blocks of that size, without the offsets.
pub(crate) fn push_lists<O: Offset>(
    bits: &mut BitmapBuilder,
    items: &Bitmap,
    array: &ListArray,
    offsets: &[O],
    a: usize,
    rows: usize,
)
    requires good { IsGood (List array.now) }
    requires offsets { places O.value offsets.now ≡ list_places (list_offsets array.now) }
    requires within { a + rows ≤ len_of (List array.now) }
    requires items { length items.now
        ≡ offset_at (list_offsets array.now) (a + rows) - offset_at (list_offsets array.now) a }
    requires room { rows ≤ bits.old.room }
    ensures bits { AddsRun items.now (list_places (list_offsets array.now)) a rows bits.old.bits
        bits.new.bits }
    ensures room { bits.new.room ≡ bits.old.room - rows }
{
    // For the proof: the number of lists fits in 64 bits, so the sums don't overflow.
    let _lists = array.offsets().len();
    let first = place_of(offsets, a);
    let items = &BitMask::from_bitmap(items);
    match one_width(offsets, a, rows) {
        Some(width) => bits.extend_blocks(items, width, rows),
        None => bits.extend_values(&ListBits {
            items,
            offsets,
            a,
            first,
            rows,
        }),
    }
}

// A truth value for each of the `rows` lists from list `a` on: whether the bits of all its items
// are set. The lowest bit of `word` is that of item `first`, the first item of list `a`.
#[derive(Drop)]
struct WordLists<'m, O: Offset> {
    word: u64,
    offsets: &'m [O],
    a: usize,
    first: usize,
    rows: usize,
    ghost within: { AreWithin 64 (places O.value offsets.now) first a rows },
    ghost has_offsets: { a + rows < length offsets.now },
    ghost good: { AreSpans (places O.value offsets.now) a rows },
    ghost fits: { a + rows < 2 ^ 64 },
}

impl<O: Offset> TruthValues for WordLists<'_, O> {
    ghost values = { λ l. all_lists (first_of (is_bit l.word) 64) (places O.value l.offsets.now)
        l.first l.a l.rows };

    #[inline(always)]
    fn len(&self) -> usize {
        self.rows
    }

    #[inline(always)]
    fn value(&self, i: usize) -> bool {
        let (place, count) = list_at(self.offsets, self.a + i);
        word_set(self.word, place.saturating_sub(self.first), count)
    }

    // Packs truth values in registers. This is faster here, since each value is computed by a shift
    // of the word, which has no vector form.
    #[inline(always)]
    fn packs_in_registers(&self) -> bool {
        true
    }
}

/// Appends a bit for each of `rows` lists from row `a` on: 1 if the bits of all its items are 1.
/// The lists have at most 64 items in all. Their bits are those of `word`, the first item lowest.
pub(crate) fn push_word_lists<O: Offset>(
    bits: &mut BitmapBuilder,
    word: u64,
    array: &ListArray,
    offsets: &[O],
    a: usize,
    rows: usize,
)
    requires good { IsGood (List array.now) }
    requires offsets { places O.value offsets.now ≡ list_places (list_offsets array.now) }
    requires within { a + rows ≤ len_of (List array.now) }
    requires few { offset_at (list_offsets array.now) (a + rows) - offset_at
        (list_offsets array.now) a ≤ 64 }
    requires room { rows ≤ bits.old.room }
    ensures bits { AddsRun
        (first_of (is_bit word)
        (offset_at (list_offsets array.now) (a + rows) - offset_at (list_offsets array.now) a))
        (list_places (list_offsets array.now)) a rows bits.old.bits bits.new.bits }
    ensures room { bits.new.room ≡ bits.old.room - rows }
{
    // For the proof: the number of lists fits in 64 bits, so the sums don't overflow.
    let _lists = array.offsets().len();
    let first = place_of(offsets, a);
    bits.extend_values(&WordLists {
        word,
        offsets,
        a,
        first,
        rows,
    });
}
