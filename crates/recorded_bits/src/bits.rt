//! Calls on bitmaps.
//!
//! - `and X Y`, `or`, `xor`, `xnor`, `and_not`, `or_not`: the operator applied to the bits of two
//!   bitmaps of equal length at each index
//! - `not X`: the negated bits
//! - `merge_eq Q L R`: for each row, whether two sides are equal, with null equal only to null. Q
//!   says which stored values are equal; L and R say which rows of the sides are present
//! - `merge_ne Q L R`: for each row, whether two sides differ. Here Q says which stored values
//!   differ
//! - `set_bits X`, `unset_bits X`, `bitmap_len X`: the number of true bits, of false bits, and of
//!   all
//! - `num_intersections_with X Y`: the number of places where both bitmaps have a true bit
//! - `get_bit X I`, `bitmap_get X I`: bit I. If I is out of range, `bitmap_get` returns `none`, and
//!   `get_bit` returns an error
//! - `bitmap_slice X AT N`: the N bits from place AT on
//! - `bitmap_share X`, `clone_bitmap X`: the bits of a clone of X. With `bitmap_share`, the clone
//!   is then converted to one whose words are shared with later clones
//! - `slice_clone X AT N`: the N bits from place AT on, cut out of a clone that shares the words of
//!   X, and then all bits of X, which must not have changed
//! - `meet_shared X P Q N`: the number of places where two windows of X both have a true bit. The
//!   windows share their words, have N bits, and begin at places P and Q
//! - `new_zeroed N`, `new_with_value VALUE N`: N bits of one value
//! - `set_bits_filled VALUE N`: the number of true bits among N bits of one value
//! - `from_bools N VALUE..`: the N truth values as bits
//! - `from_words N WORD.. AT COUNT`: COUNT bits of the N words of 64 bits, from bit AT on
//! - `from_values X`, `from_wide_values X`: the bits of X, which are read one by one. With
//!   `from_wide_values`, they are packed like the results of comparisons of wide elements (see
//!   `SingleBits`)
//! - `from_counted X N COST..`: the bits of X, which are read one by one, and the sum of the costs.
//!   N is the number of bits, and there is a COST for each

ghost use Rattle.std.specs.Prelude.{◌↔◌, ◌+◌, ◌≤◌, IsTrue};

use crate::answer_text::{write_found, write_value};
use crate::operators::{Merge, Operator};
use crate::truth_values::{CostlyBits, SingleBits};
use polars_arrays_bits::bitmap::Bitmap;
use polars_arrays_bits::error::ComputeError;
use polars_arrays_numbers::steps::Steps;
use recorded_text::bits_text::{push_bits, write_bits, write_made};
use recorded_text::fault::Fault;
use recorded_text::parts::{read_bits, read_numbers};
use recorded_text::words::Words;
use std::alloc::Global;
use std::str::FromStr;

/// A call on one bitmap, as listed at the top of this file. `Values`, `WideValues` and `Counted`
/// are `from_values`, `from_wide_values` and `from_counted`.
#[derive(Clone, Copy)]
pub enum OfOne {
    Not,
    Share,
    Clone,
    Values,
    WideValues,
    SetBits,
    UnsetBits,
    Len,
    Bit,
    Get,
    Slice,
    SliceClone,
    MeetShared,
    Counted,
}

/// A call on one bitmap, on two (`Combined`, `CountBoth`) or three (`Merged`), or one that creates
/// a bitmap from other operands. `Zeroed` is `new_zeroed`, `Filled` is `new_with_value`,
/// `CountFilled` is `set_bits_filled`, `Bools` is `from_bools`, and `Words` is `from_words`.
#[derive(Clone, Copy)]
pub enum Asked {
    One(OfOne),
    Combined(Operator),
    CountBoth,
    Merged(Merge),
    Zeroed,
    Filled,
    CountFilled,
    Bools,
    Words,
}

/// Reads the bitmaps of the call `asked` from the next words, and returns the result of the call as
/// text. Other operands are read from the words after the bitmaps. The error is `Case` if lengths
/// differ, or if a window or the index of `Bit` is out of range.
pub fn ask(alloc: Global, asked: Asked, words: &mut Words) -> Result<String, Fault> {
    match asked {
        Asked::One(of_one) => ask_next(alloc, of_one, words),
        Asked::Combined(_) | Asked::CountBoth => {
            ask_more(alloc, asked, read_bitmaps(alloc, words, 2))
        }
        Asked::Merged(_) => ask_more(alloc, asked, read_bitmaps(alloc, words, 3)),
        Asked::Zeroed => write_read(alloc, read_zeroed(alloc, words)),
        Asked::Filled => write_read(alloc, read_filled(alloc, words)),
        Asked::CountFilled => count_filled(alloc, words),
        Asked::Bools => write_read(alloc, read_bools(alloc, words)),
        Asked::Words => write_read(alloc, read_words(alloc, words)),
    }
}

// Returns the result of the call `asked` on two or three bitmaps. If `operands` is an error,
// returns it. The error is `Case` if the lengths differ, or if there are not as many bitmaps as the
// call needs.
fn ask_more(
    alloc: Global,
    asked: Asked,
    operands: Result<Vec<Bitmap>, Fault>,
) -> Result<String, Fault> {
    ask_all(alloc, asked, &operands?)
}

// Returns the result of the call `asked` on two or three bitmaps. The error is `Case` if the
// lengths differ, or if there are not as many bitmaps as the call needs.
fn ask_all(alloc: Global, asked: Asked, operands: &[Bitmap]) -> Result<String, Fault> {
    match (asked, operands) {
        (Asked::Combined(operator), [x, y]) => write_read(alloc, combine(alloc, operator, x, y)),
        (Asked::CountBoth, [x, y]) => write_count(alloc, count_both(x, y)),
        (Asked::Merged(merge), [q, l, r]) => {
            write_read(alloc, combine_three(alloc, merge, q, l, r))
        }
        _ => Err(Fault::Case),
    }
}

/// Returns whether `n` items from place `at` on are in range, for a sequence of `len` items.
pub fn is_within(at: usize, n: usize, len: usize) -> bool
    ensures { IsTrue result ↔ (at + n ≤ len) }
{
    at <= len && n <= len - at
}

/// Reads `true` or `false` from the next word. The error is `Word` if the word is missing or
/// another one.
pub fn read_truth(words: &mut Words) -> Result<bool, Fault> {
    match words.read()? {
        "true" => Ok(true),
        "false" => Ok(false),
        _ => Err(Fault::Word),
    }
}

/// Reads two numbers from the next two words. The error is `Word` if a word is missing or is no
/// number of the type.
pub fn read_pair<A: Copy + FromStr<Err: Drop>, B: Copy + FromStr<Err: Drop>>(
    words: &mut Words,
) -> Result<(A, B), Fault> {
    let first = words.read_number()?;
    let second = words.read_number()?;
    Ok((first, second))
}

/// Reads a bitmap from the next word, such as `b0:0110`.
pub fn read_bitmap(alloc: Global, words: &mut Words) -> Result<Bitmap, Fault> {
    read_bits(alloc, words.read()?)
}

/// Reads `count` bitmaps from the next words, one from each word.
pub fn read_bitmaps(alloc: Global, words: &mut Words, count: usize) -> Result<Vec<Bitmap>, Fault> {
    let mut bitmaps = Vec::new(alloc);
    for _ in 0..count {
        bitmaps.push(read_bitmap(alloc, words)?)?;
    }
    Ok(bitmaps)
}

/// Applies `operator` to the bits of two bitmaps at each index. The error is `Case` if the lengths
/// differ, and `Memory` if an allocation fails.
pub fn combine(alloc: Global, operator: Operator, x: &Bitmap, y: &Bitmap) -> Result<Bitmap, Fault> {
    if x.len() != y.len() {
        return Err(Fault::Case);
    }
    let bits = match operator {
        Operator::And => x.and(alloc, y),
        Operator::Or => x.or(alloc, y),
        Operator::Xor => x.xor(alloc, y),
        Operator::Xnor => x.xnor(alloc, y),
        Operator::AndNot => x.and_not(alloc, y),
        Operator::OrNot => x.or_not(alloc, y),
    };
    bits.map_err(Fault::from)
}

/// Returns for each row whether two sides are equal (`Merge::Eq`) or differ (`Merge::Ne`). `q` says
/// in which rows the stored values are equal, or for `Merge::Ne` differ. `l` and `r` say which rows
/// of the sides are present. The error is `Case` if the lengths differ, and `Memory` if an
/// allocation fails.
pub fn combine_three(
    alloc: Global,
    merge: Merge,
    q: &Bitmap,
    l: &Bitmap,
    r: &Bitmap,
) -> Result<Bitmap, Fault> {
    if q.len() != l.len() || q.len() != r.len() {
        return Err(Fault::Case);
    }
    let bits = match merge {
        Merge::Eq => Bitmap::merge_eq(alloc, q, l, r),
        Merge::Ne => Bitmap::merge_ne(alloc, q, l, r),
    };
    bits.map_err(Fault::from)
}

/// Returns the number of places where both bitmaps have a true bit. The error is `Case` if the
/// lengths differ.
pub fn count_both(x: &Bitmap, y: &Bitmap) -> Result<usize, Fault> {
    if x.len() != y.len() {
        return Err(Fault::Case);
    }
    Ok(x.num_intersections_with(y))
}

/// Reduces a bitmap to the `n` bits from place `at` on. The error is `Case` if they are out of
/// range.
pub fn keep(bits: &mut Bitmap, at: usize, n: usize) -> Result<(), Fault> {
    if !is_within(at, n, bits.len()) {
        return Err(Fault::Case);
    }
    bits.slice(at, n);
    Ok(())
}

/// Returns a clone of a bitmap, reduced to the `n` bits from place `at` on. The error is `Case` if
/// they are out of range, and `Memory` if an allocation fails.
pub fn cut(alloc: Global, bits: &Bitmap, at: usize, n: usize) -> Result<Bitmap, Fault> {
    let mut window = bits.clone_bitmap(alloc)?;
    keep(&mut window, at, n)?;
    Ok(window)
}

/// Returns the text of a bitmap. If `bits` is an error, returns it.
pub fn write_read(alloc: Global, bits: Result<Bitmap, Fault>) -> Result<String, Fault> {
    write_bits(alloc, &bits?)
}

// Reads a bitmap from the next word, and returns the result of the call `asked` on it. Other
// operands are read from the words after the bitmap.
fn ask_next(alloc: Global, asked: OfOne, words: &mut Words) -> Result<String, Fault> {
    let x = read_bitmap(alloc, words)?;
    ask_one(alloc, asked, &x, words)
}

// Returns the result of the call `asked` on the bitmap `x`. Other operands are read from `words`.
// The error is `Case` if a window or the index of `Bit` is out of range, or if there are not as
// many costs as bits.
fn ask_one(alloc: Global, asked: OfOne, x: &Bitmap, words: &mut Words) -> Result<String, Fault> {
    match asked {
        OfOne::Not => write_made(alloc, x.not(alloc)),
        OfOne::Clone => write_made(alloc, x.clone_bitmap(alloc)),
        OfOne::Share => write_read(alloc, share(alloc, x)),
        OfOne::Values => write_made(alloc, one_by_one(alloc, x, false)),
        OfOne::WideValues => write_made(alloc, one_by_one(alloc, x, true)),
        OfOne::SetBits => write_value(alloc, x.set_bits()),
        OfOne::UnsetBits => write_value(alloc, x.unset_bits()),
        OfOne::Len => write_value(alloc, x.len()),
        OfOne::Bit => bit(alloc, x, words.read_number()),
        OfOne::Get => get(alloc, x, words.read_number()),
        OfOne::Slice => slice(alloc, x, words),
        OfOne::SliceClone => slice_clone(alloc, x, words),
        OfOne::MeetShared => meet_shared(alloc, x, words),
        OfOne::Counted => of_counted(alloc, x, read_costs(alloc, words)),
    }
}

// Clones a bitmap, and returns the clone with shared words: later clones of it use the same words
// instead of copying them. The error is `Memory`.
fn share(alloc: Global, bits: &Bitmap) -> Result<Bitmap, Fault> {
    bits.clone_bitmap(alloc)?.share(alloc).map_err(Fault::from)
}

// Creates a bitmap from the bits of another one, which are read one by one. `wide` says how they
// are packed (see `SingleBits`).
fn one_by_one(alloc: Global, bits: &Bitmap, wide: bool) -> Result<Bitmap, ComputeError> {
    Bitmap::from_values(alloc, &SingleBits { bits, wide })
}

// Returns the text of bit `i` of `x`. If `i` is an error, returns it. The error is `Case` if `i` is
// out of range.
fn bit(alloc: Global, x: &Bitmap, i: Result<usize, Fault>) -> Result<String, Fault> {
    let i = i?;
    if i >= x.len() {
        return Err(Fault::Case);
    }
    write_value(alloc, x.get_bit(i))
}

// Returns the text of bit `i` of `x`, or `none` if `i` is out of range. If `i` is an error, returns
// it.
fn get(alloc: Global, x: &Bitmap, i: Result<usize, Fault>) -> Result<String, Fault> {
    write_found(alloc, x.get(i?))
}

// Reads a place and a number of bits from the next words, and returns the text of that many bits of
// `x` from that place on. The error is `Case` if they are out of range.
fn slice(alloc: Global, x: &Bitmap, words: &mut Words) -> Result<String, Fault> {
    let (at, n) = read_pair(words)?;
    write_read(alloc, cut(alloc, x, at, n))
}

// Reads a place and a number of bits from the next words. Cuts that many bits from that place on
// out of a clone of `x` with shared words. Returns the text of these bits, and then the text of all
// bits of the clone. The error is `Case` if the place and number are out of range.
fn slice_clone(alloc: Global, x: &Bitmap, words: &mut Words) -> Result<String, Fault> {
    let (at, n) = read_pair(words)?;
    let x = share(alloc, x)?;
    write_both(alloc, cut(alloc, &x, at, n), &x)
}

// Returns the texts of two bitmaps, separated by a space. If `first` is an error, returns it.
fn write_both(
    alloc: Global,
    first: Result<Bitmap, Fault>,
    second: &Bitmap,
) -> Result<String, Fault> {
    let mut text = write_read(alloc, first)?;
    text.push(' ')?;
    push_bits(&mut text, second)?;
    Ok(text)
}

// Reads two places and a number of bits from the next words. Returns the text of the number of
// indices at which two windows both have a true bit. The windows begin at these places of a clone
// of `x`, have that many bits, and share the words of the clone. The error is `Case` if a window is
// out of range.
fn meet_shared(alloc: Global, x: &Bitmap, words: &mut Words) -> Result<String, Fault> {
    let (p, q) = read_pair(words)?;
    let n = words.read_number()?;
    let x = share(alloc, x)?;
    write_count(alloc, meet(alloc, &x, p, q, n))
}

// Returns the number of indices at which two windows of `x` both have a true bit. The windows have
// `n` bits and begin at places `p` and `q`. The error is `Case` if one is out of range.
fn meet(alloc: Global, x: &Bitmap, p: usize, q: usize, n: usize) -> Result<usize, Fault> {
    let left = cut(alloc, x, p, n)?;
    count_with(&left, cut(alloc, x, q, n))
}

// Returns the number of places where both bitmaps have a true bit. If `y` is an error, returns it.
// The error is `Case` if the lengths differ.
fn count_with(x: &Bitmap, y: Result<Bitmap, Fault>) -> Result<usize, Fault> {
    count_both(x, &y?)
}

// Returns the text of a count. If `count` is an error, returns it.
fn write_count(alloc: Global, count: Result<usize, Fault>) -> Result<String, Fault> {
    write_value(alloc, count?)
}

// Reads a number from the next word, and creates a bitmap of that many false bits.
fn read_zeroed(alloc: Global, words: &mut Words) -> Result<Bitmap, Fault> {
    Bitmap::new_zeroed(alloc, words.read_number()?).map_err(Fault::from)
}

// Reads a truth value and a number from the next words, and creates a bitmap of that many bits of
// this value.
fn read_filled(alloc: Global, words: &mut Words) -> Result<Bitmap, Fault> {
    let value = read_truth(words)?;
    let n = words.read_number()?;
    Bitmap::new_with_value(alloc, value, n).map_err(Fault::from)
}

// Reads a truth value and a number from the next words, creates a bitmap of that many bits of this
// value, and returns the text of the number of true bits.
fn count_filled(alloc: Global, words: &mut Words) -> Result<String, Fault> {
    let bits = read_filled(alloc, words)?;
    write_value(alloc, bits.set_bits())
}

// Reads a count and that many truth values from the next words, and creates a bitmap of these.
fn read_bools(alloc: Global, words: &mut Words) -> Result<Bitmap, Fault> {
    let count: usize = words.read_number()?;
    let mut values = Vec::new(alloc);
    for _ in 0..count {
        values.push(read_truth(words)?)?;
    }
    Bitmap::from_bools(alloc, &values).map_err(Fault::from)
}

// Reads a count and that many 64-bit words, then a place and a number of bits. Creates a bitmap of
// that many bits of the words from that place on. The error is `Case` if they are out of range.
fn read_words(alloc: Global, words: &mut Words) -> Result<Bitmap, Fault> {
    let numbers = read_numbers::<u64>(alloc, words)?;
    let (at, n) = read_pair(words)?;
    match numbers.len().checked_mul(64) {
        Some(all) if is_within(at, n, all) => Ok(Bitmap::from_words(numbers, at, n)),
        _ => Err(Fault::Case),
    }
}

// Creates a bitmap from the bits of another one, which are read one by one, each with its cost.
// Returns the text of the bitmap and of the sum of the costs. If `costs` is an error, returns it.
// The error is `Case` if there are not as many costs as bits.
fn of_counted(
    alloc: Global,
    bits: &Bitmap,
    costs: Result<Vec<usize>, Fault>,
) -> Result<String, Fault> {
    write_costly(alloc, bits, &costs?)
}

// Creates a bitmap from the bits of another one, which are read one by one, each with its cost.
// Returns the text of the bitmap and of the sum of the costs. The error is `Case` if there are not
// as many costs as bits.
fn write_costly(alloc: Global, bits: &Bitmap, costs: &[usize]) -> Result<String, Fault> {
    if costs.len() != bits.len() {
        return Err(Fault::Case);
    }
    write_counted(alloc, &CostlyBits { bits, costs })
}

// Reads a count and that many costs from the next words.
fn read_costs(alloc: Global, words: &mut Words) -> Result<Vec<usize>, Fault> {
    let count: usize = words.read_number()?;
    let mut costs = Vec::new(alloc);
    for _ in 0..count {
        costs.push(words.read_number()?)?;
    }
    Ok(costs)
}

// Creates a bitmap from `values`, which are read one by one. Returns the text of the bitmap and of
// the sum of the costs.
fn write_counted(alloc: Global, values: &CostlyBits) -> Result<String, Fault> {
    let mut steps = Steps::new();
    let mut text = write_made(alloc, Bitmap::from_counted(alloc, values, &mut steps))?;
    write!(text, " {}", steps.seen())?;
    Ok(text)
}
