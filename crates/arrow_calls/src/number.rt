//! Numbers of 128 bits that are exchanged with C.

ghost use Rattle.std.specs.Prelude.{◌≡◌, ◌≤ℤ◌, option_map, IfSome, IsNone};
ghost use Rattle.arrow_calls.specs.Numbers.{number_words, words_number};

use polars_arrays_numbers::native_type::{greatest_value, least_value};
use polars_compute_slots::number::UniqueNumber;

/// A number of 128 bits in two's complement, as two words, or no number.
#[repr(C)]
#[derive(Clone, Copy, Drop)]
pub struct Number {
    /// The lower 64 bits, or 0 if there is no number.
    pub low: u64,
    /// The upper 64 bits, or 0 if there is no number.
    pub high: u64,
    /// 1 if there is a number, or 0 if there is none.
    pub exists: u64,
}

/// Converts a number of a column to `i128`. Returns `None` for `None`.
pub fn whole<T: UniqueNumber>(number: Option<T>) -> Option<i128>
    ensures number { result ≡ option_map T.value number }
    ensures in_type { IfSome result (λ n. (T.low ≤ℤ n) × (n ≤ℤ T.high)) }
{
    match number {
        Some(number) => Some(number.whole()),
        None => None,
    }
}

/// Converts a number to the form in which C receives it. `None` becomes three zeros.
pub fn number_of(whole: Option<i128>) -> Number
    ensures { result ≡ number_words whole }
{
    match whole {
        Some(number) => {
            let bits = number.cast_unsigned();
            Number {
                low: (bits & 0xFFFF_FFFF_FFFF_FFFF) as u64,
                high: (bits >> 64) as u64,
                exists: 1,
            }
        }
        None => Number {
            low: 0,
            high: 0,
            exists: 0,
        },
    }
}

/// Returns the number of 128 bits in two's complement whose lower word is `low` and whose upper
/// word is `high`. For example, it is -1 if both words are `u64::MAX`.
pub fn whole_of(low: u64, high: u64) -> i128
    ensures { result ≡ words_number low high }
{
    let low = u128::from(low);
    let high = u128::from(high);
    (low + (high << 64)).cast_signed()
}

/// Converts a number to type `T`, or returns `None` if it is out of the type's range. For example,
/// 200 gives `None` for `i8`.
pub fn narrow<T: UniqueNumber>(whole: i128) -> Option<T>
    ensures number { IfSome result (λ number. T.value number ≡ whole) }
    ensures none { IsNone result → ¬ ((T.low ≤ℤ whole) × (whole ≤ℤ T.high)) }
{
    if whole < least_value::<T>().whole() || greatest_value::<T>().whole() < whole {
        return None;
    }
    Some(T::from_whole(whole))
}
