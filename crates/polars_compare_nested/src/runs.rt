//! Finds runs of adjacent lists that match. Two lists match if they have the same number of items,
//! and are both present or both empty. One comparison of all items then compares all lists of a
//! run.

ghost use Rattle.std.specs.Prelude.{◌≡◌, ℕ, ◌+◌, ◌-◌, ◌<◌, ◌≤◌, false, length, IfOk};
ghost use Rattle.polars_arrays_nested.specs.GoodParts.{IsGood};
ghost use Rattle.polars_arrays_nested.specs.Lengths.{len_of};
ghost use Rattle.polars_arrays_nested.specs.ListOffsets.{list_places, offset_at, span};
ghost use Rattle.polars_arrays_nested.specs.Parts.{list_offsets};
ghost use Rattle.polars_arrays_nested.specs.declared.any_array.AnyArray.{List};
ghost use Rattle.polars_arrays_words.specs.Bits.{first_of, is_bit};
ghost use Rattle.polars_compare_nested.specs.Runs.{AddsRun, AreNext, Match, TellMatches, is_match};
ghost use Rattle.polars_compare_nested.specs.Known.{AreKnown, row_total};

use crate::spans::{leading_bits, matching_rows, matching_word, push_lists, push_word_lists};
use polars_arrays_bits::bitmap::Bitmap;
use polars_arrays_bits::builder::BitmapBuilder;
use polars_arrays_nested::list::ListArray;
use polars_arrays_nested::list_offsets::ListOffsets;
use polars_arrays_words::words::WORD_BITS;

/// A run of adjacent lists that match, as the two windows of all their items.
#[derive(Drop)]
pub(crate) struct ItemRun {
    /// Index of the first item of the left lists.
    pub(crate) left_start: usize,
    /// Index of the first item of the right lists.
    pub(crate) right_start: usize,
    /// Number of items of all lists, the same on each side.
    pub(crate) count: usize,
    /// Number of lists on each side.
    pub(crate) len: usize,
}

/// The result of `next_rows`: a run of lists that match, or two lists that don't match.
#[derive(Drop)]
pub(crate) enum NextRows {
    /// The next two lists don't match: they have different numbers of items, or they have items and
    /// at least one of them is null.
    Apart,
    /// The next lists match.
    Run(ItemRun),
}

/// Returns the number of items of list `i`.
pub(crate) fn item_count(array: &ListArray, i: usize) -> usize
    requires good { IsGood (List array.now) }
    requires within { i < len_of (List array.now) }
    ensures { result ≡ span (list_offsets array.now) i }
{
    // For the proof: the number of lists fits in 64 bits, so `i + 1` doesn't overflow.
    let _lists = array.offsets().len();
    array.offsets().offset(i + 1) - array.offsets().offset(i)
}

// Calls the function `$of` with two list arrays and their offsets as slices. The offsets have 32 or
// 64 bits on each side.
macro_rules! on_lists {
    ($of:ident, $left:expr, $a:expr, $right:expr, $b:expr, $n:expr) => {
        match ($left.offsets(), $right.offsets()) {
            (ListOffsets::Small(l), ListOffsets::Small(r)) => {
                $of($left, l.as_slice(), $a, $right, r.as_slice(), $b, $n)
            }
            (ListOffsets::Large(l), ListOffsets::Large(r)) => {
                $of($left, l.as_slice(), $a, $right, r.as_slice(), $b, $n)
            }
            (ListOffsets::Small(l), ListOffsets::Large(r)) => {
                $of($left, l.as_slice(), $a, $right, r.as_slice(), $b, $n)
            }
            (ListOffsets::Large(l), ListOffsets::Small(r)) => {
                $of($left, l.as_slice(), $a, $right, r.as_slice(), $b, $n)
            }
        }
    };
}

// Returns the number of leading pairs of lists that match, at most `n`. Pair `i` is list `a + i` of
// the left array and list `b + i` of the right one. `matching_run` calls this function only if all
// pairs of its `Matches` match. Not inlined, so that the code of `matching_run` stays small.
#[inline(never)]
fn run_length(left: &ListArray, a: usize, right: &ListArray, b: usize, n: usize) -> usize
    requires left_good { IsGood (List left.now) }
    requires right_good { IsGood (List right.now) }
    requires left_in { a + n ≤ len_of (List left.now) }
    requires right_in { b + n ≤ len_of (List right.now) }
    ensures within { result ≤ n }
    ensures matching { Match left.now a right.now b result }
    ensures longest { result < n → is_match left.now (a + result) right.now (b + result) ≡ false }
{
    on_lists!(matching_rows, left, a, right, b, n)
}

// Returns a word whose bit `i` is 1 if list `a + i` of the left array and list `b + i` of the right
// one match, for each `i` below `n`, which is at most 64.
#[inline(never)]
fn word_of(left: &ListArray, a: usize, right: &ListArray, b: usize, n: usize) -> u64
    requires left_good { IsGood (List left.now) }
    requires right_good { IsGood (List right.now) }
    requires left_in { a + n ≤ len_of (List left.now) }
    requires right_in { b + n ≤ len_of (List right.now) }
    requires few { n ≤ 64 }
    ensures { TellMatches left.now a right.now b n result }
{
    on_lists!(matching_word, left, a, right, b, n)
}

/// The known matches of the next pairs of lists, at most 64. Bit `i` of `word` is 1 if the lists of
/// pair `i` match, for each `i` below `len`.
#[derive(Drop)]
pub(crate) struct Matches {
    word: u64,
    len: usize,
}

impl Matches {
    /// Creates a value in which no match is known.
    pub(crate) fn none() -> Matches
        ensures { result.len ≡ 0 }
    {
        Matches { word: 0, len: 0 }
    }

    // Computes the matches of the first `n` pairs of lists, or of the first 64 if `n` is larger.
    // Pair `i` is list `a + i` of the left array and list `b + i` of the right one.
    fn of_lists(left: &ListArray, a: usize, right: &ListArray, b: usize, n: usize) -> Matches
        requires left_good { IsGood (List left.now) }
        requires right_good { IsGood (List right.now) }
        requires left_in { a + n ≤ len_of (List left.now) }
        requires right_in { b + n ≤ len_of (List right.now) }
        ensures known { AreKnown left.now a right.now b n result }
        ensures some { 1 ≤ n → 1 ≤ result.len }
    {
        let len = n.min(WORD_BITS);
        Matches {
            word: word_of(left, a, right, b, len),
            len,
        }
    }

    // Sets `self` to the result of `of_lists`, unless some matches are known already.
    #[inline(always)]
    fn learn(&mut self, left: &ListArray, a: usize, right: &ListArray, b: usize, n: usize)
        requires left_good { IsGood (List left.now) }
        requires right_good { IsGood (List right.now) }
        requires some { 1 ≤ n }
        requires left_in { a + n ≤ len_of (List left.now) }
        requires right_in { b + n ≤ len_of (List right.now) }
        requires known { AreKnown left.now a right.now b n self.old }
        ensures known { AreKnown left.now a right.now b n self.new }
        ensures some { 1 ≤ self.new.len }
    {
        if self.len == 0 {
            *self = Matches::of_lists(left, a, right, b, n);
        }
    }

    // Removes the matches of the first `n` pairs of lists.
    #[inline(always)]
    fn skip(&mut self, n: usize)
        requires within { n ≤ self.old.len }
        requires few { n < 64 }
        ensures len { self.new.len ≡ self.old.len - n }
        ensures bits { (i : ℕ) → is_bit self.new.word i ≡ is_bit self.old.word (n + i) }
    {
        self.word = self.word >> n;
        self.len -= n;
    }
}

// Returns the number of leading pairs of lists that match, at most `n`. Pair `i` is list `a + i` of
// the left array and list `b + i` of the right one. `matches` has the known matches of these pairs;
// if none is known, they are computed. Afterwards it has the known matches of the pairs after the
// counted ones.
#[inline(always)]
fn matching_run(
    left: &ListArray,
    a: usize,
    right: &ListArray,
    b: usize,
    n: usize,
    matches: &mut Matches,
) -> usize
    requires left_good { IsGood (List left.now) }
    requires right_good { IsGood (List right.now) }
    requires some { 1 ≤ n }
    requires left_in { a + n ≤ len_of (List left.now) }
    requires right_in { b + n ≤ len_of (List right.now) }
    requires known { AreKnown left.now a right.now b n matches.old }
    ensures within { result ≤ n }
    ensures matching { Match left.now a right.now b result }
    ensures apart { result ≡ 0 → (1 ≤ matches.new.len) × (is_match left.now a right.now b ≡ false) }
    ensures known { AreKnown left.now (a + result) right.now (b + result) (n - result) matches.new }
{
    // For the proof: the number of lists fits in 64 bits, so the sums don't overflow.
    let (_lists, _others) = (left.offsets().len(), right.offsets().len());
    matches.learn(left, a, right, b, n);
    let rows = leading_bits(matches.word, matches.len);
    if rows < matches.len {
        matches.skip(rows);
        return rows;
    }
    *matches = Matches::none();
    rows + run_length(left, a + rows, right, b + rows, n - rows)
}

/// Returns the run of the next lists that match, or `Apart` if the next two lists don't match. At
/// most `n` lists are read, from row `a` on of the left array and from row `b` on of the right one.
/// `matches` has the known matches of these lists. Afterwards it has the known matches of the lists
/// that follow the returned ones.
pub(crate) fn next_rows(
    left: &ListArray,
    a: usize,
    right: &ListArray,
    b: usize,
    n: usize,
    matches: &mut Matches,
) -> NextRows
    requires left_good { IsGood (List left.now) }
    requires right_good { IsGood (List right.now) }
    requires some { 1 ≤ n }
    requires left_in { a + n ≤ len_of (List left.now) }
    requires right_in { b + n ≤ len_of (List right.now) }
    requires known { AreKnown left.now a right.now b n matches.old }
    ensures next { AreNext left.now a right.now b n result }
    ensures known { AreKnown left.now (a + row_total result) right.now (b + row_total result)
        (n - row_total result) matches.new }
{
    let rows = matching_run(left, a, right, b, n, matches);
    if rows == 0 {
        matches.skip(1);
        return NextRows::Apart;
    }
    // For the proof: the number of lists fits in 64 bits, so `a + rows` doesn't overflow.
    let _lists = left.offsets().len();
    let first = left.offsets().offset(a);
    NextRows::Run(ItemRun {
        left_start: first,
        right_start: right.offsets().offset(b),
        count: left.offsets().offset(a + rows) - first,
        len: rows,
    })
}

/// Appends a bit for each of `rows` lists from row `a` on: 1 if the bits of all its items are 1.
/// `items` has the bits of all items of these lists.
pub(crate) fn push_rows(
    bits: &mut BitmapBuilder,
    items: &Bitmap,
    array: &ListArray,
    a: usize,
    rows: usize,
)
    requires good { IsGood (List array.now) }
    requires within { a + rows ≤ len_of (List array.now) }
    requires items { length items.now
        ≡ offset_at (list_offsets array.now) (a + rows) - offset_at (list_offsets array.now) a }
    requires room { rows ≤ bits.old.room }
    ensures bits { AddsRun items.now (list_places (list_offsets array.now)) a rows bits.old.bits
        bits.new.bits }
    ensures room { bits.new.room ≡ bits.old.room - rows }
{
    match array.offsets() {
        ListOffsets::Small(offsets) => {
            push_lists(bits, items, array, offsets.as_slice(), a, rows)
        }
        ListOffsets::Large(offsets) => {
            push_lists(bits, items, array, offsets.as_slice(), a, rows)
        }
    }
}

/// Appends a bit for each of `rows` lists from row `a` on: 1 if the bits of all its items are 1.
/// The lists have at most 64 items in all. Their bits are those of `word`, the first item lowest.
pub(crate) fn push_word(
    bits: &mut BitmapBuilder,
    word: u64,
    array: &ListArray,
    a: usize,
    rows: usize,
)
    requires good { IsGood (List array.now) }
    requires within { a + rows ≤ len_of (List array.now) }
    requires few { offset_at (list_offsets array.now) (a + rows) - offset_at
        (list_offsets array.now) a ≤ 64 }
    requires room { rows ≤ bits.old.room }
    ensures bits { AddsRun
        (first_of (is_bit word)
        (offset_at (list_offsets array.now) (a + rows) - offset_at (list_offsets array.now) a))
        (list_places (list_offsets array.now)) a rows bits.old.bits bits.new.bits }
    ensures room { bits.new.room ≡ bits.old.room - rows }
{
    match array.offsets() {
        ListOffsets::Small(offsets) => {
            push_word_lists(bits, word, array, offsets.as_slice(), a, rows)
        }
        ListOffsets::Large(offsets) => {
            push_word_lists(bits, word, array, offsets.as_slice(), a, rows)
        }
    }
}
