//! Byte strings of a part, which are checked, read and compared in the part's own memory.
#![tactic(auto, using(crate::proofs::LentPlaces::lent))]

ghost use Rattle.std.specs.Prelude.{◌≡◌, ◌≢◌, ◌≤◌, ◌<◌, ◌↔◌, None, Some, IfSome, IsTrue, length};
ghost use Rattle.std.specs.Prelude.{[], slice_index_or, take};
ghost use Rattle.std.specs.Str.{IsUtf8};
ghost use Rattle.polars_arrays_bytes.specs.OffsetStrings.{AreGood, IsGoodRow, place_at, row_count};
ghost use Rattle.polars_arrays_bytes.specs.OffsetStrings.{string_between, strings_between};
ghost use Rattle.polars_arrays_bytes.specs.Texts.{AreBegun, AreTexts, IsBegun};
ghost use Rattle.polars_arrays_numbers.specs.Naturals.{natural_of};
ghost use Rattle.arrow_parts.specs.Lent.{place_from, places_from};
ghost use Rattle.arrow_equality.specs.PartStrings.{ArePartStrings, same_strings};

use arrow_parts::part::Part;
use polars_arrays_bits::packing::TruthValues;
use polars_arrays_bytes::offsets::{first_bad_row, row_count};
use polars_arrays_flat::byte_blocks::beginnings_equal;
use polars_arrays_numbers::offset::Offset;
use std::marker::Model;
use std::str::from_utf8;

/// Returns `offset - base`, an index, without a check. The offset must not be negative or less than
/// `base`.
#[inline(always)]
pub fn place_of<O: Offset>(offset: O, base: usize) -> usize
    requires { place_from base (natural_of (O.value offset)) ≢ None }
    ensures { place_from base (natural_of (O.value offset)) ≡ Some result }
{
    offset.place() - base
}

/// Returns whether offsets, less `base`, delimit strings among `n` bytes: there is an offset, none
/// is less than the one before, the first is at least `base`, and the last at most `base + n`.
/// Returns `false` also if `base + n` is not below 2^64.
pub fn are_good<O: Offset>(offsets: &[O], base: usize, n: usize) -> bool
    ensures { IsTrue result → AreGood n (places_from base O.value offsets.now) }
{
    let Some(end) = base.checked_add(n) else {
        return false;
    };
    if first_bad_row(offsets, end).is_some() {
        return false;
    }
    offsets[0].place() >= base
}

/// Returns the bytes from the first one of string `i` to the end of `bytes`, and the length of
/// string `i`.
#[inline(always)]
fn string_on<'a, O: Offset>(
    offsets: &[O],
    base: usize,
    bytes: &'a [u8],
    i: usize,
) -> (&'a [u8], usize)
    requires row { i < row_count offsets.now }
    requires good { IsGoodRow (length bytes.now) (places_from base O.value offsets.now) i }
    ensures within { result.1 ≤ length result.0.now }
    ensures string { take result.1 result.0.now
        ≡ string_between (places_from base O.value offsets.now) bytes.now i }
{
    let (from, to) = (place_of(offsets[i], base), place_of(offsets[i + 1], base));
    (&bytes[from..], to - from)
}

/// Returns where the first string begins, and where the last one ends.
fn ends<O: Offset>(offsets: &[O], base: usize, bytes: &[u8]) -> (usize, usize)
    requires { AreGood (length bytes.now) (places_from base O.value offsets.now) }
    ensures from { place_at (places_from base O.value offsets.now) 0 ≡ Some result.0 }
    ensures to { place_at (places_from base O.value offsets.now) (row_count offsets.now)
        ≡ Some result.1 }
    ensures within { (result.0 ≤ result.1) × (result.1 ≤ length bytes.now) }
{
    (
        place_of(offsets[0], base),
        place_of(offsets[row_count(offsets)], base),
    )
}

/// Returns whether the byte at index `at` is not a continuation byte of UTF-8. Returns `true` if
/// `at` is not below `end`.
fn begins_character(bytes: &[u8], at: usize, end: usize) -> bool
    requires { end ≤ length bytes.now }
    ensures { IsTrue result → IsBegun bytes.now end at }
{
    if at >= end {
        return true;
    }
    let byte = bytes[at];
    (byte < 128) | (byte >= 192)
}

/// Returns whether no string begins inside a character, that is, with a continuation byte. `end` is
/// where the last string ends. No branch depends on the bytes.
fn begin_characters<O: Offset>(offsets: &[O], base: usize, bytes: &[u8], end: usize) -> bool
    requires good { AreGood (length bytes.now) (places_from base O.value offsets.now) }
    requires within { end ≤ length bytes.now }
    ensures { IsTrue result → AreBegun (places_from base O.value offsets.now) bytes.now end }
{
    let mut begun = true;
    for row in 0..row_count(offsets) {
        begun &= begins_character(bytes, place_of(offsets[row], base), end);
    }
    begun
}

/// Returns whether `bytes` is UTF-8.
pub fn is_text(bytes: &[u8]) -> bool
    ensures { IsTrue result ↔ IsUtf8 bytes.now }
{
    from_utf8(bytes).is_ok()
}

/// Returns whether one check of all bytes shows that each string is UTF-8: the bytes are ASCII, or
/// they are UTF-8 and no string begins inside a character.
fn are_texts<O: Offset>(offsets: &[O], base: usize, bytes: &[u8]) -> bool
    requires { AreGood (length bytes.now) (places_from base O.value offsets.now) }
    ensures { IsTrue result
        → AreTexts (strings_between (places_from base O.value offsets.now) bytes.now) }
{
    let (from, to) = ends(offsets, base, bytes);
    let used = &bytes[from..to];
    if used.is_ascii() {
        return true;
    }
    is_text(used) && begin_characters(offsets, base, bytes, to)
}

/// Returns whether `offsets` delimit the strings of a part: the part has no child arrays and a name
/// in UTF-8, there is one offset more than rows, and the offsets, less the part's base, never fall
/// and stay within its bytes. If `texts` is true, the strings also have to be UTF-8. The validity
/// is not checked.
fn are_part_strings<O: Offset>(part: &Part<'_>, offsets: &[O], texts: bool) -> bool
    ensures { IsTrue result
        → ArePartStrings part.now (places_from part.now.base O.value offsets.now) texts }
{
    if part.children != 0 || !is_text(part.name) {
        return false;
    }
    if row_count(offsets) != part.rows || !are_good(offsets, part.base, part.u8s.len()) {
        return false;
    }
    !texts || are_texts(offsets, part.base, part.u8s)
}

/// The byte strings of a part, in the part's own memory: string `i` has the bytes from offset
/// `offsets[i]` up to offset `offsets[i + 1]`. An offset `o` refers to index `o - base` of `bytes`.
#[derive(Drop)]
pub struct PartStrings<'a, O: Offset> {
    offsets: &'a [O],
    base: usize,
    bytes: &'a [u8],
}

impl<'a, O: Offset> Model for PartStrings<'a, O> {
    ghost use Rattle.std.specs.Prelude.{List, ℕ, length};
    ghost use Rattle.polars_arrays_bytes.specs.OffsetStrings.{AreGood, strings_between};
    ghost use Rattle.arrow_parts.specs.Lent.{places_from};

    ghost Value = { List (List ℕ) };

    ghost view = { λ s. strings_between (places_from s.base O.value s.offsets.now) s.bytes.now };

    ghost invariant = { λ s. AreGood (length s.bytes.now)
        (places_from s.base O.value s.offsets.now) };
}

impl<'a, O: Offset> PartStrings<'a, O> {
    /// Borrows the strings of a part, which have the offsets `offsets`. Returns `None` if
    /// `are_part_strings` refuses them.
    pub fn of_part(part: &Part<'a>, offsets: &'a [O], texts: bool) -> Option<PartStrings<'a, O>>
        ensures good { IfSome result
            (λ _. ArePartStrings part.now (places_from part.now.base O.value offsets.now) texts) }
        ensures strings { IfSome result
            (λ s. s ≡ strings_between (places_from part.now.base O.value offsets.now)
            part.now.u8s.now) }
    {
        if !are_part_strings(part, offsets, texts) {
            return None;
        }
        Some(PartStrings {
            offsets,
            base: part.base,
            bytes: part.u8s,
        })
    }

    /// Returns the bytes from the first one of string `i` to the end of the part's bytes, and the
    /// length of string `i`.
    #[inline(always)]
    fn on(&self, i: usize) -> (&'a [u8], usize)
        requires { i < length self.now }
        ensures within { result.1 ≤ length result.0.now }
        ensures string { take result.1 result.0.now ≡ slice_index_or self.now i [] }
    {
        string_on(self.offsets, self.base, self.bytes, i)
    }
}

/// The first `n` pairs of strings of two parts. The truth value of a pair says whether its strings
/// are equal.
#[derive(Drop)]
pub struct StringPairs<'a, O: Offset> {
    pub left: PartStrings<'a, O>,
    pub right: PartStrings<'a, O>,
    pub n: usize,
    ghost left_in: { n ≤ length left },
    ghost right_in: { n ≤ length right },
}

impl<O: Offset> TruthValues for StringPairs<'_, O> {
    ghost values = { λ p. same_strings p.left p.right p.n };

    #[inline(always)]
    fn len(&self) -> usize {
        self.n
    }

    #[inline(always)]
    fn value(&self, i: usize) -> bool {
        let (left, n) = self.left.on(i);
        let (right, m) = self.right.on(i);
        beginnings_equal(left, n, right, m)
    }

    #[inline(always)]
    fn packs_in_registers(&self) -> bool {
        true
    }
}
