//! The power of ten in a number, which comes from its exponent and its fraction.

ghost use Rattle.std.specs.Option.{SomeIff};
ghost use Rattle.std.specs.Prelude.{◌≡◌, ◌+◌, ◌-◌, ◌^◌, ◌<◌, ◌≤◌, ◌++◌, MatchOption, OnOk};
ghost use Rattle.std.specs.Str.Parse.{AllDigits, digits_value};
ghost use Rattle.fast_float.specs.Text.{tens_up, tens_down};
ghost use Rattle.json_decimals.specs.Texts.{tens_text};

use fast_float::Numeral;
use itoa::Buffer;
use std::alloc::AllocError;

/// A power of ten: `10^up / 10^down`. A number without its sign is its digits, read as an integer,
/// times such a power.
#[derive(Clone, Copy, Drop)]
pub struct Tens {
    /// The exponent of the power by which the digits are multiplied.
    pub up: u128,
    /// The exponent of the power by which the digits are divided.
    pub down: u128,
}

impl Tens {
    /// Returns the power of ten that keeps the number unchanged when `zeros` zeros are removed from
    /// the end of its digits. `up` or `down` of the result is 0.
    pub(crate) fn with_zeros(self, zeros: usize) -> Tens
        requires { self.up + self.down < 10 ^ 31 }
        ensures up { result.up ≡ self.up + zeros - self.down }
        ensures down { result.down ≡ self.down - (self.up + zeros) }
    {
        let up = self.up + zeros as u128;
        Tens {
            up: up.saturating_sub(self.down),
            down: self.down.saturating_sub(up),
        }
    }
}

/// Reads ASCII digits as an integer. Returns `None` if the integer has more than 30 digits, not
/// counting leading zeros.
fn value_of(digits: &[u8]) -> Option<u128>
    requires { AllDigits 10 digits.now }
    ensures { SomeIff result (digits_value 10 digits.now < 10 ^ 30) (digits_value 10 digits.now) }
{
    let mut value: u128 = 0;
    for digit in digits {
        if value >= 100_000_000_000_000_000_000_000_000_000 {
            return None;
        }
        value = value * 10 + (*digit - b'0') as u128;
    }
    Some(value)
}

/// Returns the power of ten of a numeral, or `None` if its exponent has more than 30 digits, not
/// counting leading zeros. For example, 1.50 has the digits 150 and the power `1 / 10^2`.
pub fn tens_of(numeral: &Numeral<'_>) -> Option<Tens>
    ensures tens { MatchOption result (10 ^ 30 ≤ digits_value 10 numeral.now.exponent)
        (λ t. (t.up ≡ tens_up numeral.now) × (t.down ≡ tens_down numeral.now)) }
    ensures narrow { MatchOption result (10 ^ 30 ≤ digits_value 10 numeral.now.exponent)
        (λ t. digits_value 10 numeral.now.exponent < 10 ^ 30) }
    ensures bound { MatchOption result (10 ^ 30 ≤ digits_value 10 numeral.now.exponent)
        (λ t. t.up + t.down < 10 ^ 31) }
{
    let exponent = value_of(numeral.exponent())?;
    let fraction = numeral.fraction().len() as u128;
    if numeral.is_exponent_negative() {
        Some(Tens {
            up: 0,
            down: fraction + exponent,
        })
    } else {
        Some(Tens {
            up: exponent,
            down: fraction,
        })
    }
}

/// Appends an exponent to `out`. If `tens.up` is not 0, this is `e` and `tens.up`, such as `e2`.
/// Otherwise it is `e-` and `tens.down`, such as `e-1`, or nothing if `tens.down` is 0 too.
pub(crate) fn push_tens(out: &mut Vec<u8>, tens: Tens) -> Result<(), AllocError>
    requires { tens.up + tens.down < 10 ^ 32 }
    ensures { OnOk result (out.new.items ≡ out.old.items ++ tens_text tens.up tens.down) }
{
    let mut buffer = Buffer::new();
    if tens.up > 0 {
        out.push(b'e')?;
        out.extend_from_slice(buffer.format(tens.up).as_bytes())?;
    } else if tens.down > 0 {
        out.extend_from_slice(b"e-")?;
        out.extend_from_slice(buffer.format(tens.down).as_bytes())?;
    }
    Ok(())
}
