//! Writes the values of keys, with numbers in the usual notation instead of their normal texts.

ghost use Rattle.std.specs.Fmt.{sign_text};
ghost use Rattle.std.specs.Prelude.{◌≡◌, ◌++◌, false, replicate, true, MatchOption, OnOk};
ghost use Rattle.fast_float.specs.Text.{tens_down, tens_up};
ghost use Rattle.document_words.specs.Numbers.{is_short, plain_digits, value_text, with_point};

use fast_float::Numeral;
use json_decimals::numbers::{is_negative, numeral_of};
use json_decimals::tens::tens_of;
use json_plain::plain::push_plain_json;
use std::alloc::AllocError;

/// The most zeros at the end of a number, or digits after its decimal point, that are written to
/// avoid an exponent.
const MOST_TENS: u128 = 20;

/// The power of ten 10^`up` / 10^`down` of a number that is written without an exponent. The number
/// is the integer that its digits form, times this power.
#[derive(Clone, Copy, Drop)]
struct ShortTens {
    up: usize,
    down: usize,
}

/// Returns the power of ten of a numeral, if the numeral is to be written without an exponent.
/// Returns `None` if the numeral has a fraction, has no digits, or has an exponent above 20 or
/// below -20.
fn short_tens(numeral: &Numeral<'_>) -> Option<ShortTens>
    ensures { MatchOption result (is_short numeral.now ≡ false)
        (λ t. (is_short numeral.now ≡ true) × (t.up ≡ tens_up numeral.now)
        × (t.down ≡ tens_down numeral.now)) }
{
    let Some(tens) = tens_of(numeral) else {
        return None;
    };
    if numeral.whole().is_empty() {
        return None;
    }
    if !numeral.fraction().is_empty() {
        return None;
    }
    if tens.up + tens.down > MOST_TENS {
        return None;
    }
    Some(ShortTens {
        up: tens.up as usize,
        down: tens.down as usize,
    })
}

/// Appends `-` if `negative` is true.
fn push_sign(out: &mut Vec<u8>, negative: bool) -> Result<(), AllocError>
    ensures { OnOk result (out.new.items ≡ out.old.items ++ sign_text negative) }
{
    if negative {
        out.push(b'-')?;
    }
    Ok(())
}

/// Appends `n` zeros.
fn push_zeros(out: &mut Vec<u8>, n: usize) -> Result<(), AllocError>
    ensures { OnOk result (out.new.items ≡ out.old.items ++ replicate n 48) }
{
    for _ in 0..n {
        out.push(b'0')?;
    }
    Ok(())
}

/// Appends `digits` with a decimal point before the last `down` of them. If there are not more than
/// `down` digits, appends `0.`, the missing zeros, and then `digits`.
#[tactic(auto, unfolding(crate::specs::Numbers::with_point))]
fn push_with_point(out: &mut Vec<u8>, digits: &[u8], down: usize) -> Result<(), AllocError>
    ensures { OnOk result (out.new.items ≡ out.old.items ++ with_point digits.now down) }
{
    if down < digits.len() {
        let (whole, fraction) = digits.split_at(digits.len() - down);
        out.extend_from_slice(whole)?;
        out.push(b'.')?;
        out.extend_from_slice(fraction)?;
        return Ok(());
    }
    out.extend_from_slice(b"0.")?;
    push_zeros(out, down - digits.len())?;
    out.extend_from_slice(digits)?;
    Ok(())
}

/// Appends the product of the number `digits` and the power of ten `tens`, without an exponent.
#[tactic(auto, unfolding(crate::specs::Numbers::plain_digits))]
fn push_plain_digits(out: &mut Vec<u8>, digits: &[u8], tens: ShortTens) -> Result<(), AllocError>
    ensures { OnOk result
        (out.new.items ≡ out.old.items ++ plain_digits digits.now tens.up tens.down) }
{
    if tens.down > 0 {
        push_with_point(out, digits, tens.down)?;
        return Ok(());
    }
    out.extend_from_slice(digits)?;
    push_zeros(out, tens.up)?;
    Ok(())
}

/// Appends the value of a key. `text` is the normal text of the value. A number is written without
/// an exponent: `12e2` becomes `1200`, and `15e-1` becomes `1.5`. A number whose exponent in `text`
/// is above 20 or below -20 is written as `text`. Any other value is written as `text` with control
/// characters escaped.
#[tactic(auto, unfolding(crate::specs::Numbers::value_text))]
pub fn push_value(out: &mut Vec<u8>, text: &[u8]) -> Result<(), AllocError>
    ensures { OnOk result (out.new.items ≡ out.old.items ++ value_text text.now) }
{
    let numeral = numeral_of(text);
    let Some(tens) = short_tens(&numeral) else {
        push_plain_json(out, text)?;
        return Ok(());
    };
    push_sign(out, is_negative(text))?;
    push_plain_digits(out, numeral.whole(), tens)?;
    Ok(())
}
