//! Calls on borrowed windows of bitmaps. A MASK is three words: a bitmap, the place where a window
//! of the bitmap begins, and the number of bits in the window.
//!
//! - `mask_and MASK MASK`, `mask_or`, `mask_xor`, `mask_xnor`, `mask_and_not`, `mask_or_not`: the
//!   operator applied to the bits of two windows of equal length at each index
//! - `mask_not MASK`: the negated bits
//! - `mask_merge_eq MASK MASK MASK`: for each row, whether two sides are equal, with null equal
//!   only to null. The first mask says which stored values are equal. The second and the third say
//!   which rows of the left and of the right side are present
//! - `mask_merge_ne MASK MASK MASK`: for each row, whether two sides differ. Here the first mask
//!   says which stored values differ
//! - `to_bitmap MASK`: the bits
//! - `window MASK AT N`: the N bits from place AT on
//! - `mask_len MASK`, `mask_unset_bits MASK`: the number of bits, and of false bits
//! - `mask_get MASK I`: bit I
//! - `few_bits MASK AT N`: the N bits from place AT on, at most 64, as a number whose lowest bit is
//!   the first one
//! - `all_set MASK AT N`: whether the N bits from place AT on are all true
//! - `all_in_blocks MASK WIDTH N`: for each of the first N blocks of WIDTH bits, whether all bits
//!   of the block are true

ghost use Rattle.std.specs.Prelude.{◌≡◌, ◌+◌, ◌≤◌, length, IfOk};

use crate::answer_text::write_value;
use crate::bits::{is_within, read_bitmap, read_pair, write_read};
use crate::operators::{Merge, Operator};
use polars_arrays_bits::bit_mask::BitMask;
use polars_arrays_bits::bitmap::Bitmap;
use recorded_text::bits_text::write_made;
use recorded_text::fault::Fault;
use recorded_text::words::Words;
use std::alloc::Global;

/// A call on one window, as listed at the top of this file. `Bits` is `to_bitmap`, and `Blocks` is
/// `all_in_blocks`.
#[derive(Clone, Copy)]
pub enum OfOne {
    Not,
    Bits,
    Window,
    Len,
    UnsetBits,
    Get,
    FewBits,
    AllSet,
    Blocks,
}

/// A call on one window, or one that combines two or merges three of equal length.
#[derive(Clone, Copy)]
pub enum Asked {
    One(OfOne),
    Combined(Operator),
    Merged(Merge),
}

/// Reads the windows of the call `asked` from the next words, and returns the result of the call as
/// text. Other operands are read from the words after the windows. The error is `Case` if an index
/// or a window is out of range, if lengths differ, or if `FewBits` is called for more than 64 bits.
pub fn ask(alloc: Global, asked: Asked, words: &mut Words) -> Result<String, Fault> {
    match asked {
        Asked::One(of_one) => ask_next(alloc, of_one, words),
        Asked::Combined(_) => ask_more(alloc, asked, read_windows(alloc, words, 2)),
        Asked::Merged(_) => ask_more(alloc, asked, read_windows(alloc, words, 3)),
    }
}

// Reads `count` windows from the next words, each of them from three words. The error is `Case` if
// a window is out of range.
fn read_windows(alloc: Global, words: &mut Words, count: usize) -> Result<Vec<Window>, Fault> {
    let mut windows = Vec::new(alloc);
    for _ in 0..count {
        windows.push(Window::read(alloc, words)?)?;
    }
    Ok(windows)
}

// Returns the result of the call `asked` on two or three windows. If `operands` is an error,
// returns it. The error is `Case` if the lengths differ, or if there are not as many windows as the
// call needs.
fn ask_more(
    alloc: Global,
    asked: Asked,
    operands: Result<Vec<Window>, Fault>,
) -> Result<String, Fault> {
    ask_all(alloc, asked, &operands?)
}

// Returns the result of the call `asked` on two or three windows. The error is `Case` if the
// lengths differ, or if there are not as many windows as the call needs.
fn ask_all(alloc: Global, asked: Asked, operands: &[Window]) -> Result<String, Fault> {
    match (asked, operands) {
        (Asked::Combined(operator), [x, y]) => {
            write_read(alloc, combine(alloc, operator, &x.mask(), &y.mask()))
        }
        (Asked::Merged(merge), [q, l, r]) => {
            write_read(
                alloc,
                combine_three(alloc, merge, &q.mask(), &l.mask(), &r.mask()),
            )
        }
        _ => Err(Fault::Case),
    }
}

/// Returns the window of `bits` that has `n` bits and begins at place `at`. The error is `Case` if
/// the window is out of range.
pub fn window_of<'a>(bits: &'a Bitmap, at: usize, n: usize) -> Result<BitMask<'a>, Fault>
    ensures { IfOk result (λ mask. length mask ≡ n) }
{
    if !is_within(at, n, bits.len()) {
        return Err(Fault::Case);
    }
    Ok(BitMask::from_bitmap(bits).window(at, n))
}

// A bitmap, and a window of it: the `n` bits from place `at` on.
#[derive(Drop)]
struct Window {
    bits: Bitmap,
    at: usize,
    n: usize,
    ghost within: { at + n ≤ length bits },
}

impl Window {
    // Reads a bitmap, and the place and the length of a window of it, from the next three words.
    // The error is `Case` if the window is out of range.
    fn read(alloc: Global, words: &mut Words) -> Result<Window, Fault> {
        let bits = read_bitmap(alloc, words)?;
        let (at, n) = read_pair(words)?;
        if !is_within(at, n, bits.len()) {
            return Err(Fault::Case);
        }
        Ok(Window { bits, at, n })
    }

    // Returns the window as a mask that borrows the bits.
    fn mask(&self) -> BitMask<'_> {
        BitMask::from_bitmap(&self.bits).window(self.at, self.n)
    }
}

/// Applies `operator` to the bits of two windows at each index. The error is `Case` if the lengths
/// differ, and `Memory` if an allocation fails.
pub fn combine(
    alloc: Global,
    operator: Operator,
    x: &BitMask<'_>,
    y: &BitMask<'_>,
) -> Result<Bitmap, Fault> {
    if x.len() != y.len() {
        return Err(Fault::Case);
    }
    let bits = match operator {
        Operator::And => x.and(alloc, y),
        Operator::Or => x.or(alloc, y),
        Operator::Xor => x.xor(alloc, y),
        Operator::Xnor => x.xnor(alloc, y),
        Operator::AndNot => x.and_not(alloc, y),
        Operator::OrNot => x.or_not(alloc, y),
    };
    bits.map_err(Fault::from)
}

/// Returns for each row whether two sides are equal (`Merge::Eq`) or differ (`Merge::Ne`). `q` says
/// in which rows the stored values are equal, or for `Merge::Ne` differ. `l` and `r` say which rows
/// of the sides are present. The error is `Case` if the lengths differ, and `Memory` if an
/// allocation fails.
pub fn combine_three(
    alloc: Global,
    merge: Merge,
    q: &BitMask<'_>,
    l: &BitMask<'_>,
    r: &BitMask<'_>,
) -> Result<Bitmap, Fault> {
    if q.len() != l.len() || q.len() != r.len() {
        return Err(Fault::Case);
    }
    let bits = match merge {
        Merge::Eq => BitMask::merge_eq(alloc, q, l, r),
        Merge::Ne => BitMask::merge_ne(alloc, q, l, r),
    };
    bits.map_err(Fault::from)
}

/// Returns whether the `n` bits of `mask` from place `at` on are all true. The error is `Case` if
/// they are out of range.
pub fn is_all_set(mask: &BitMask<'_>, at: usize, n: usize) -> Result<bool, Fault> {
    if !is_within(at, n, mask.len()) {
        return Err(Fault::Case);
    }
    Ok(mask.all_set(at, n))
}

/// Returns a bit for each of the first `n` blocks of `width` bits, true if all bits of the block
/// are true. The error is `Case` if `mask` is shorter than the blocks, and `Memory` if an
/// allocation fails.
pub fn fold_blocks(
    alloc: Global,
    mask: &BitMask<'_>,
    width: usize,
    n: usize,
) -> Result<Bitmap, Fault> {
    match width.checked_mul(n) {
        Some(len) if len <= mask.len() => {
            mask.all_in_blocks(alloc, width, n).map_err(Fault::from)
        }
        _ => Err(Fault::Case),
    }
}

// Reads a window from the next words, and returns the result of the call `asked` on it. Other
// operands are read from the words after the window. The error is `Case` if the window or an
// operand is out of range, or if `FewBits` is called for more than 64 bits.
fn ask_next(alloc: Global, asked: OfOne, words: &mut Words) -> Result<String, Fault> {
    let window = Window::read(alloc, words)?;
    ask_one(alloc, asked, &window.mask(), words)
}

// Returns the result of the call `asked` on the window `mask`. Other operands are read from
// `words`. The error is `Case` if they are out of range, or if `FewBits` is called for more than 64
// bits.
fn ask_one(
    alloc: Global,
    asked: OfOne,
    mask: &BitMask<'_>,
    words: &mut Words,
) -> Result<String, Fault> {
    match asked {
        OfOne::Not => write_made(alloc, mask.not(alloc)),
        OfOne::Bits => write_made(alloc, mask.to_bitmap(alloc)),
        OfOne::Len => write_value(alloc, mask.len()),
        OfOne::UnsetBits => write_value(alloc, mask.unset_bits()),
        OfOne::Get => bit(alloc, mask, words.read_number()),
        _ => ask_part(alloc, asked, mask, read_pair(words)),
    }
}

// Returns the result of the call `asked` on the window `mask`. `numbers` has a place and a number
// of bits, or for `Blocks` the width and the number of blocks. If `numbers` is an error, returns
// it. The error is `Case` if these bits are out of range, or if `FewBits` is called for more than
// 64 bits.
fn ask_part(
    alloc: Global,
    asked: OfOne,
    mask: &BitMask<'_>,
    numbers: Result<(usize, usize), Fault>,
) -> Result<String, Fault> {
    let (first, second) = numbers?;
    match asked {
        OfOne::Window => part(alloc, mask, first, second),
        OfOne::FewBits => few_bits(alloc, mask, first, second),
        OfOne::AllSet => write_truth(alloc, is_all_set(mask, first, second)),
        OfOne::Blocks => write_read(alloc, fold_blocks(alloc, mask, first, second)),
        _ => Err(Fault::Word),
    }
}

// Returns the text of a truth value. If `truth` is an error, returns it.
fn write_truth(alloc: Global, truth: Result<bool, Fault>) -> Result<String, Fault> {
    write_value(alloc, truth?)
}

// Returns the text of the `n` bits of `mask` from place `at` on. The error is `Case` if they are
// out of range.
fn part(alloc: Global, mask: &BitMask<'_>, at: usize, n: usize) -> Result<String, Fault> {
    if !is_within(at, n, mask.len()) {
        return Err(Fault::Case);
    }
    write_made(alloc, mask.window(at, n).to_bitmap(alloc))
}

// Returns the text of the `n` bits of `mask` from place `at` on, as a number whose lowest bit is
// the first of them. The error is `Case` if `n` is above 64 or the bits are out of range.
fn few_bits(alloc: Global, mask: &BitMask<'_>, at: usize, n: usize) -> Result<String, Fault> {
    if n > 64 || !is_within(at, n, mask.len()) {
        return Err(Fault::Case);
    }
    write_value(alloc, mask.few_bits(at, n))
}

// Returns the text of bit `i` of `mask`. If `i` is an error, returns it. The error is `Case` if `i`
// is out of range.
fn bit(alloc: Global, mask: &BitMask<'_>, i: Result<usize, Fault>) -> Result<String, Fault> {
    let i = i?;
    if i >= mask.len() {
        return Err(Fault::Case);
    }
    write_value(alloc, mask.get(i))
}
