//! Closeness of numbers: whether two numbers differ by at most a margin.

ghost use Rattle.std.specs.Prelude.{◌≡◌, ◌⊎◌, IfErr, IfOk};
ghost use Rattle.json_decimals.specs.Decimals.{decimal_of};
ghost use Rattle.json_decimals.specs.Texts.{HasWideExponent};
ghost use Rattle.json_tolerances.specs.Closeness.{is_close, is_within, is_within_part};

use crate::bounds::Bound;
use crate::numbers::Number;
use crate::sums::{is_each_at_most, is_sum_at_most, is_sum_at_most_either};
use crate::terms::Term;
use json_decimals::error::NumberError;

/// The margin within which two numbers are close: the greatest difference that is allowed.
#[derive(Drop)]
pub enum Margin {
    /// The difference is at most this number.
    Absolute(Bound),
    /// The difference is at most this number times the larger of the two absolute values.
    Relative(Bound),
}

/// Returns whether two numbers differ by at most `bound`.
fn are_within(bound: &Bound, left: &Number<'_>, right: &Number<'_>) -> bool
    ensures { result ≡ is_within bound.now left.now right.now }
{
    let (own, other, by) = (left.tens(), right.tens(), bound.tens());
    let first = left.times_tens(other.down + by.down);
    let second = right.times_tens(own.down + by.down);
    let room = Term::ten(by.up + own.down + other.down);
    let times = bound.coefficient();
    if left.has_sign_of(right) {
        return is_each_at_most(&first, &second, &room, &room, times);
    }
    is_sum_at_most(&first, &second, &room, times)
}

/// Returns whether two numbers differ by at most `bound` times the larger of their absolute values.
fn are_within_part(bound: &Bound, left: &Number<'_>, right: &Number<'_>) -> bool
    ensures { result ≡ is_within_part bound.now left.now right.now }
{
    let (own, other, by) = (left.tens(), right.tens(), bound.tens());
    let first = left.times_tens(other.down + by.down);
    let second = right.times_tens(own.down + by.down);
    let of_first = left.times_tens(other.down + by.up);
    let of_second = right.times_tens(own.down + by.up);
    let times = bound.coefficient();
    if left.has_sign_of(right) {
        return is_each_at_most(&first, &second, &of_first, &of_second, times);
    }
    is_sum_at_most_either(&first, &second, &of_first, &of_second, times)
}

impl Margin {
    /// Returns whether the numbers in the texts `left` and `right` differ by at most the margin.
    /// For example, a margin of `Absolute` 0.01 allows 0.30 and 0.31. If a text is not a number,
    /// the longest number at its beginning is used, or else 0.
    ///
    /// Fails with `WideExponent` if an exponent has more than 30 digits, not counting leading
    /// zeros.
    pub fn allows(&self, left: &str, right: &str) -> Result<bool, NumberError>
        ensures close { IfOk result
            (λ b. b ≡ is_close self.now (decimal_of left.now) (decimal_of right.now)) }
        ensures fault { IfErr result (λ e. e ≡ NumberError.WideExponent) }
        ensures wide { IfErr result (λ _. HasWideExponent left.now ⊎ HasWideExponent right.now) }
    {
        let Some(first) = Number::read(left) else {
            return Err(NumberError::WideExponent);
        };
        let Some(second) = Number::read(right) else {
            return Err(NumberError::WideExponent);
        };
        match self {
            Margin::Absolute(bound) => Ok(are_within(bound, &first, &second)),
            Margin::Relative(bound) => Ok(are_within_part(bound, &first, &second)),
        }
    }
}
