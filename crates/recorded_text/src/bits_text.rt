//! Bits as text: `b0:` and a digit for each bit. Some functions write `x` in place of the bit of a
//! null row, for which nothing is promised.
//!
//! The error of a function is `Memory`, or an error that is given to it in place of bits or a mask.

use crate::fault::Fault;
use polars_arrays_bits::bit_mask::BitMask;
use polars_arrays_bits::bitmap::Bitmap;
use polars_arrays_bits::error::ComputeError;
use polars_arrays_flat::mask::Mask;
use std::alloc::Global;

/// Returns `1` for `true` and `0` for `false`.
fn digit(bit: bool) -> char {
    if bit { '1' } else { '0' }
}

/// Returns whether row `i` has a 0 in the validity. Returns `false` if there is no validity, or if
/// the validity has no bit `i`.
pub fn is_null(validity: Option<&Bitmap>, i: usize) -> bool {
    match validity {
        Some(bits) => bits.get(i) == Some(false),
        None => false,
    }
}

/// Returns the text of bits: `b0:` and a digit for each bit.
pub fn write_bits(alloc: Global, bits: &Bitmap) -> Result<String, Fault> {
    let mut text = String::new(alloc);
    push_bits(&mut text, bits)?;
    Ok(text)
}

/// Returns the text of the bits: `b0:` and a digit for each bit. If `bits` is an error, returns it
/// as a `Fault`.
pub fn write_made(alloc: Global, bits: Result<Bitmap, ComputeError>) -> Result<String, Fault> {
    write_bits(alloc, &bits?)
}

/// Returns the text of the bits of a mask, or `none` for a mask without bits, which says that all
/// rows are present. If `mask` is an error, returns it as a `Fault`.
pub fn write_made_mask(
    alloc: Global,
    mask: Result<Mask<'_>, ComputeError>,
) -> Result<String, Fault> {
    write_mask(alloc, &mask?)
}

// Returns the text of the bits of a mask, or `none` for a mask without bits.
fn write_mask(alloc: Global, mask: &Mask<'_>) -> Result<String, Fault> {
    match mask.bits() {
        Some(bits) => write_lent(alloc, &bits),
        None => Ok("none".to_string(alloc)?),
    }
}

// Returns the text of borrowed bits: `b0:` and a digit for each bit.
fn write_lent(alloc: Global, bits: &BitMask<'_>) -> Result<String, Fault> {
    let mut text = String::new(alloc);
    text.push_str("b0:")?;
    for i in 0..bits.len() {
        text.push(digit(bits.get(i)))?;
    }
    Ok(text)
}

/// Appends the text of bits to `text`: `b0:` and a digit for each bit.
pub fn push_bits(text: &mut String, bits: &Bitmap) -> Result<(), Fault> {
    text.push_str("b0:")?;
    for i in 0..bits.len() {
        text.push(digit(bits.get_bit(i)))?;
    }
    Ok(())
}

/// Returns the text of bits, one for each row: `b0:` and for each row its bit as a digit, or `x` if
/// the row is null in the validity `left` or `right`.
pub fn write_present(
    alloc: Global,
    bits: &Bitmap,
    left: Option<&Bitmap>,
    right: Option<&Bitmap>,
) -> Result<String, Fault> {
    let mut text = String::new(alloc);
    text.push_str("b0:")?;
    for i in 0..bits.len() {
        let masked = is_null(left, i) || is_null(right, i);
        text.push(digit_or_mask(bits.get_bit(i), masked))?;
    }
    Ok(text)
}

/// Returns `x` if `masked` is true, otherwise the digit of `bit`.
fn digit_or_mask(bit: bool, masked: bool) -> char {
    if masked { 'x' } else { digit(bit) }
}

/// Returns the text of bits, one for each row, with `x` for the rows that are null in `left` or
/// `right`. If `bits` is an error, returns it as a `Fault`.
pub fn write_made_present(
    alloc: Global,
    bits: Result<Bitmap, ComputeError>,
    left: Option<&Bitmap>,
    right: Option<&Bitmap>,
) -> Result<String, Fault> {
    write_present(alloc, &bits?, left, right)
}

/// Returns the text of bits, one for each row: `b0:` and for each row its bit as a digit, or `x` if
/// the row's bit of the mask `left` or `right` is 0.
pub fn write_unmasked(
    alloc: Global,
    bits: &Bitmap,
    left: &Mask<'_>,
    right: &Mask<'_>,
) -> Result<String, Fault> {
    let mut text = String::new(alloc);
    text.push_str("b0:")?;
    for i in 0..bits.len() {
        let masked = !left.is_present(i) || !right.is_present(i);
        text.push(digit_or_mask(bits.get_bit(i), masked))?;
    }
    Ok(text)
}
