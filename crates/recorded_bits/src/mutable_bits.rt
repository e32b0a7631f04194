//! Calls on bitmaps that are changed in place.
//!
//! A call is `mutable zeroed N OPERATION..`, `mutable set N OPERATION..` or
//! `mutable of X OPERATION..`. It begins with N false bits, N true bits, or the bits of X, and
//! applies the operations to these bits. The last operation is `freeze`. The call returns the
//! results of the operations in order. Below, `bit` is a bit, and `x` is the bit of X at the same
//! index. These are the operations and their results:
//!
//! - `set I VALUE`: no result; sets bit I to VALUE, which is `true` or `false`
//! - `or X`: no result; sets each bit to `bit | x`. X is read as a mutable bitmap
//! - `and X`: no result; sets each bit to `bit & x`
//! - `and_values X`, `and_wide_values X`: no result; sets each bit to `bit & x`. The bits of X are
//!   read one by one. With `and_wide_values`, they are packed like the results of comparisons of
//!   wide elements (see `SingleBits`)
//! - `and_mask X`, `or_not_mask X`: no result; sets each bit to `bit & x` or to `bit | !x`. X is
//!   read as a mask
//! - `merge_eq L R`, `merge_ne L R`: no result. Before, the bits say which rows of two sides have
//!   equal (`merge_eq`) or unequal (`merge_ne`) stored values. Afterwards, they say which rows are
//!   equal or unequal. L and R say which rows of the left and right side are present
//! - `get I`: bit I
//! - `len`, `count`: the number of bits, and of true bits
//! - `freeze`: all bits

use crate::answer_text::{Told, write_told, write_value};
use crate::bits::{read_bitmap, read_bitmaps, read_truth};
use crate::operators::Merge;
use crate::truth_values::SingleBits;
use polars_arrays_bits::bit_mask::BitMask;
use polars_arrays_bits::bitmap::Bitmap;
use polars_arrays_bits::mutable_bitmap::MutableBitmap;
use recorded_text::fault::Fault;
use recorded_text::names::find_word;
use recorded_text::words::Words;
use std::alloc::Global;

// Reads `zeroed` or `set` and a number of bits, or `of` and bits, from the next words, and creates
// these bits. The error is `Word` if the first word is another one.
fn begin(alloc: Global, words: &mut Words) -> Result<MutableBitmap, Fault> {
    match words.read()? {
        "zeroed" => read_zeroed(alloc, words),
        "set" => read_set(alloc, words),
        "of" => read_mutable(alloc, words),
        _ => Err(Fault::Word),
    }
}

// Reads a number from the next word, and creates that many false bits.
fn read_zeroed(alloc: Global, words: &mut Words) -> Result<MutableBitmap, Fault> {
    MutableBitmap::from_len_zeroed(alloc, words.read_number()?).map_err(Fault::from)
}

// Reads a number from the next word, and creates that many true bits.
fn read_set(alloc: Global, words: &mut Words) -> Result<MutableBitmap, Fault> {
    MutableBitmap::from_len_set(alloc, words.read_number()?).map_err(Fault::from)
}

// An operation on bits, as listed at the top of this file.
#[derive(Clone, Copy)]
enum Operation {
    Set,
    Or,
    Join(Join),
    Merge(Merge),
    Get,
    Len,
    Count,
}

// An operation that joins each bit with the bit of a bitmap at the same index.
#[derive(Clone, Copy)]
enum Join {
    And,
    AndValues,
    AndWideValues,
    AndMask,
    OrNotMask,
}

// The operations by name.
const OPERATIONS: [(&str, Operation); 12] = [
    ("set", Operation::Set),
    ("or", Operation::Or),
    ("and", Operation::Join(Join::And)),
    ("and_values", Operation::Join(Join::AndValues)),
    ("and_wide_values", Operation::Join(Join::AndWideValues)),
    ("and_mask", Operation::Join(Join::AndMask)),
    ("or_not_mask", Operation::Join(Join::OrNotMask)),
    ("merge_eq", Operation::Merge(Merge::Eq)),
    ("merge_ne", Operation::Merge(Merge::Ne)),
    ("get", Operation::Get),
    ("len", Operation::Len),
    ("count", Operation::Count),
];

/// Reads bits from the next words, applies the operations after them, up to `freeze`, and returns
/// their results. The last result is the text of all bits. The error is `Word` for wrong or missing
/// words, `Case` if an index is out of range or a length differs, or `Memory`.
pub fn operate(alloc: Global, words: &mut Words) -> Result<String, Fault> {
    let mut bits = begin(alloc, words)?;
    let told = tell(alloc, &mut bits, words);
    write_told(alloc, told, &bits.freeze())
}

// Reads operations up to `freeze`, applies them to `bits`, and returns their results. `freeze`
// itself is not applied.
fn tell(alloc: Global, bits: &mut MutableBitmap, words: &mut Words) -> Result<Told, Fault> {
    let mut told = Told::new(alloc);
    apply_all(alloc, bits, words, &mut told)?;
    Ok(told)
}

// Reads operations up to `freeze`, applies them to `bits`, and appends their results to `told`.
// `freeze` itself is not applied.
fn apply_all(
    alloc: Global,
    bits: &mut MutableBitmap,
    words: &mut Words,
    told: &mut Told,
) -> Result<(), Fault> {
    for _ in 0..u64::MAX {
        match words.read()? {
            "freeze" => break,
            word => apply(alloc, bits, find_word(&OPERATIONS, word), words, told)?,
        }
    }
    Ok(())
}

// Applies an operation to `bits`, and appends its result, if it has one, to `told`. The operands
// are read from `words`. If `operation` is an error, returns it. The error is `Case` if an index is
// out of range or a length differs.
fn apply(
    alloc: Global,
    bits: &mut MutableBitmap,
    operation: Result<Operation, Fault>,
    words: &mut Words,
    told: &mut Told,
) -> Result<(), Fault> {
    match operation? {
        Operation::Set => set_read(bits, words),
        Operation::Or => or_assign(bits, read_mutable(alloc, words)),
        Operation::Join(join) => join_read(bits, join, read_bitmap(alloc, words)),
        Operation::Merge(merge) => merge_read(bits, merge, read_bitmaps(alloc, words, 2)),
        Operation::Get => told.add_text(bit(alloc, bits, words.read_number())),
        Operation::Len => told.add_value(alloc, bits.len()),
        Operation::Count => told.add_value(alloc, bits.set_bits()),
    }
}

// Returns the text of bit `i`. If `i` is an error, returns it. The error is `Case` if `i` is out of
// range.
fn bit(alloc: Global, bits: &MutableBitmap, i: Result<usize, Fault>) -> Result<String, Fault> {
    let i = i?;
    if i >= bits.len() {
        return Err(Fault::Case);
    }
    write_value(alloc, bits.get(i))
}

// Reads an index and a truth value from the next words, and sets the bit at this index to the
// value. The error is `Case` if the index is out of range.
fn set_read(bits: &mut MutableBitmap, words: &mut Words) -> Result<(), Fault> {
    let i = words.read_number()?;
    set(bits, i, read_truth(words)?)
}

// Sets bit `i` to `value`. The error is `Case` if `i` is out of range.
fn set(bits: &mut MutableBitmap, i: usize, value: bool) -> Result<(), Fault> {
    if i >= bits.len() {
        return Err(Fault::Case);
    }
    bits.set(i, value);
    Ok(())
}

// Reads a bitmap from the next word, and converts it to a mutable bitmap.
fn read_mutable(alloc: Global, words: &mut Words) -> Result<MutableBitmap, Fault> {
    read_bitmap(alloc, words)?
        .into_mut(alloc)
        .map_err(Fault::from)
}

// Sets each bit to true if the bit of `other` at the same index is true. If `other` is an error,
// returns it. The error is `Case` if the lengths differ.
fn or_assign(bits: &mut MutableBitmap, other: Result<MutableBitmap, Fault>) -> Result<(), Fault> {
    let other = other?;
    if other.len() != bits.len() {
        return Err(Fault::Case);
    }
    bits.or_assign(&other);
    Ok(())
}

// Joins each bit with the bit of `other` at the same index, as `join` says. If `other` is an error,
// returns it. The error is `Case` if the lengths differ.
fn join_read(
    bits: &mut MutableBitmap,
    join: Join,
    other: Result<Bitmap, Fault>,
) -> Result<(), Fault> {
    join_with(bits, join, &other?)
}

// Joins each bit with the bit of `other` at the same index, as `join` says. The error is `Case` if
// the lengths differ.
fn join_with(bits: &mut MutableBitmap, join: Join, other: &Bitmap) -> Result<(), Fault> {
    if other.len() != bits.len() {
        return Err(Fault::Case);
    }
    match join {
        Join::And => bits.and_assign(other),
        Join::AndValues => bits.and_assign_values(&SingleBits {
            bits: other,
            wide: false,
        }),
        Join::AndWideValues => bits.and_assign_values(&SingleBits {
            bits: other,
            wide: true,
        }),
        Join::AndMask => bits.and_assign_mask(&BitMask::from_bitmap(other)),
        Join::OrNotMask => bits.or_not_assign_mask(&BitMask::from_bitmap(other)),
    }
    Ok(())
}

// Merges `bits` with the masks of two sides, as `merge` says. The masks are the two bitmaps in
// `present`. If `present` is an error, returns it. The error is `Case` if there are not two masks,
// or if the lengths differ.
fn merge_read(
    bits: &mut MutableBitmap,
    merge: Merge,
    present: Result<Vec<Bitmap>, Fault>,
) -> Result<(), Fault> {
    merge_all(bits, merge, &present?)
}

// Merges `bits` with the masks of two sides, as `merge` says. The masks are the two bitmaps in
// `present`. The error is `Case` if there are not two masks, or if the lengths differ.
fn merge_all(bits: &mut MutableBitmap, merge: Merge, present: &[Bitmap]) -> Result<(), Fault> {
    match present {
        [left, right] => merge_masks(
            bits,
            merge,
            &BitMask::from_bitmap(left),
            &BitMask::from_bitmap(right),
        ),
        _ => Err(Fault::Case),
    }
}

// Merges `bits` with the masks of both sides. Before, the bits say which rows have equal
// (`Merge::Eq`) or unequal (`Merge::Ne`) stored values. Afterwards, they say which rows are equal
// or unequal. The error is `Case` if the lengths differ.
fn merge_masks(
    bits: &mut MutableBitmap,
    merge: Merge,
    left: &BitMask<'_>,
    right: &BitMask<'_>,
) -> Result<(), Fault> {
    if left.len() != bits.len() || right.len() != bits.len() {
        return Err(Fault::Case);
    }
    match merge {
        Merge::Eq => bits.merge_eq_assign(left, right),
        Merge::Ne => bits.merge_ne_assign(left, right),
    }
    Ok(())
}
