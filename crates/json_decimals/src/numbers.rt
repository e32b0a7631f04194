//! Normal texts of numbers.

ghost use Rattle.std.specs.Fmt.{sign_text};
ghost use Rattle.std.specs.Prelude.{◌≡◌, ◌++◌, Err, OnOk};
ghost use Rattle.json_decimals.specs.Decimals.{is_negative, parts_of};
ghost use Rattle.json_decimals.specs.Texts.{HasWideExponent, normal_number};

use crate::digits::Digits;
use crate::error::NumberError;
use crate::tens::{Tens, push_tens, tens_of};
use fast_float::Numeral;
use std::alloc::AllocError;

/// Returns whether the text of a number begins with a minus sign.
pub fn is_negative(text: &[u8]) -> bool
    ensures { result ≡ is_negative text.now }
{
    match text.first() {
        Some(byte) => *byte == b'-',
        None => false,
    }
}

/// Splits the text of a number into its digits and its exponent. A minus sign at the beginning is
/// skipped.
pub fn numeral_of(text: &[u8]) -> Numeral<'_>
    ensures { result ≡ parts_of text.now }
{
    if is_negative(text) {
        Numeral::scan(&text[1..])
    } else {
        Numeral::scan(text)
    }
}

/// Appends a minus sign if `negative` is true.
fn push_sign(out: &mut Vec<u8>, negative: bool) -> Result<(), AllocError>
    ensures { OnOk result (out.new.items ≡ out.old.items ++ sign_text negative) }
{
    if negative {
        out.push(b'-')?;
    }
    Ok(())
}

/// Appends the normal text of the number `text`: a minus sign if the number is negative, its digits
/// without zeros at either end, and an exponent unless the exponent is 0. For example, 12 is `12`,
/// 1200 is `12e2`, and -1.50 is `-15e-1`. The text of zero is `0`, even for -0.0 and 0e5. If `text`
/// is not a number, the longest number at its beginning is used, or else 0.
///
/// Fails with `WideExponent` if the exponent has more than 30 digits, not counting leading zeros,
/// even if the number is 0; `out` is then unchanged. Fails with `Memory` if an allocation fails;
/// the beginning of the normal text may then have been appended.
pub fn push_normal_number(out: &mut Vec<u8>, text: &str) -> Result<(), NumberError>
    ensures ok { OnOk result (out.new.items ≡ out.old.items ++ normal_number text.now) }
    ensures narrow { OnOk result (¬ HasWideExponent text.now) }
    ensures wide { result ≡ Err NumberError.WideExponent → HasWideExponent text.now }
{
    let bytes = text.as_bytes();
    let numeral = numeral_of(bytes);
    let Some(tens) = tens_of(&numeral) else {
        return Err(NumberError::WideExponent);
    };
    let digits = Digits::of(&numeral);
    let (start, end) = (digits.start(), digits.end());
    if end <= start {
        out.push(b'0')?;
        return Ok(());
    }
    push_sign(out, is_negative(bytes))?;
    digits.push(out, start, end)?;
    push_tens(out, tens.with_zeros(digits.len() - end))?;
    Ok(())
}
