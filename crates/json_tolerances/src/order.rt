//! The order of numbers.

ghost use Rattle.std.specs.Prelude.{◌≡◌, ◌+◌, ◌⊎◌, nat_lt, IfErr, IfOk};
ghost use Rattle.json_decimals.specs.Decimals.{decimal_of};
ghost use Rattle.json_decimals.specs.Texts.{HasWideExponent};
ghost use Rattle.json_tolerances.specs.Order.{decimal_less, signed_less};

use crate::numbers::Number;
use crate::sums::compare_with_sum;
use crate::terms::Term;
use json_decimals::error::NumberError;

/// Returns whether `x` is less than `y`.
fn is_below(x: &Term<'_>, y: &Term<'_>) -> bool
    ensures { result ≡ nat_lt x.now y.now }
{
    let none = Term::ten(0);
    compare_with_sum(x, y, &none, 1, 1, 0).is_lt()
}

/// Returns whether the sum of `x` and `y` is greater than 0.
fn have_sum(x: &Term<'_>, y: &Term<'_>) -> bool
    ensures { result ≡ nat_lt 0 (x.now + y.now) }
{
    let none = Term::ten(0);
    compare_with_sum(&none, x, y, 0, 1, 1).is_lt()
}

/// Returns whether the first of two numbers is less than the second. `x` and `y` are their absolute
/// values. `negative` says whether the first has a minus sign, `other_negative` whether the second
/// has one. 0 and -0 are equal.
fn is_signed_less(negative: bool, other_negative: bool, x: &Term<'_>, y: &Term<'_>) -> bool
    ensures { result ≡ signed_less negative other_negative x.now y.now }
{
    if !negative {
        return !other_negative && is_below(x, y);
    }
    if other_negative {
        return is_below(y, x);
    }
    have_sum(x, y)
}

/// Returns whether a number is less than another.
fn is_number_less(left: &Number<'_>, right: &Number<'_>) -> bool
    ensures { result ≡ decimal_less left.now right.now }
{
    let first = left.times_tens(right.tens().down);
    let second = right.times_tens(left.tens().down);
    is_signed_less(left.is_negative(), right.is_negative(), &first, &second)
}

/// Returns whether the number in the text `left` is less than the one in the text `right`. If a
/// text is not a number, the longest number at its beginning is used, or else 0.
///
/// Fails with `WideExponent` if an exponent has more than 30 digits, not counting leading zeros.
pub fn is_less(left: &str, right: &str) -> Result<bool, NumberError>
    ensures less { IfOk result
        (λ b. b ≡ decimal_less (decimal_of left.now) (decimal_of right.now)) }
    ensures fault { IfErr result (λ e. e ≡ NumberError.WideExponent) }
    ensures wide { IfErr result (λ _. HasWideExponent left.now ⊎ HasWideExponent right.now) }
{
    let Some(first) = Number::read(left) else {
        return Err(NumberError::WideExponent);
    };
    let Some(second) = Number::read(right) else {
        return Err(NumberError::WideExponent);
    };
    Ok(is_number_less(&first, &second))
}
