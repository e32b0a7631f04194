//! Natural numbers of any size, read digit by digit.

ghost use Rattle.std.specs.Prelude.{◌≡◌, ℕ, ◌-◌, ◌*◌, ◌/◌, ◌%◌, ◌^◌, ◌<◌, ◌≤◌, ◌++◌, length};
ghost use Rattle.std.specs.Prelude.{slice_index};
ghost use Rattle.std.specs.Option.{SomeIff};
ghost use Rattle.std.specs.Str.Parse.{AllDigits, digits_value};
ghost use Rattle.fast_float.specs.Text.{digits_of};

use fast_float::Numeral;
use std::marker::Model;

/// A natural number: the digits of `whole`, followed by those of `fraction`, read as an integer,
/// times `10^tens`. The digits are borrowed.
#[derive(Drop)]
pub(crate) struct Term<'a> {
    whole: &'a [u8],
    fraction: &'a [u8],
    tens: u128,
}

impl<'a> Model for Term<'a> {
    ghost use Rattle.std.specs.Prelude.{◌*◌, ◌^◌, ◌<◌, ◌++◌, ℕ};
    ghost use Rattle.std.specs.Str.Parse.{AllDigits, digits_value};

    ghost Value = { ℕ };

    ghost view = { λ t. digits_value 10 (t.whole.now ++ t.fraction.now) * 10 ^ t.tens };

    ghost invariant = { λ t. AllDigits 10 (t.whole.now ++ t.fraction.now) × (t.tens < 10 ^ 33) };
}

/// Returns the byte at index `i` of the bytes of `front` followed by those of `back`.
fn byte_at(front: &[u8], back: &[u8], i: usize) -> u8
    requires { i < length (front.now ++ back.now) }
    ensures { result ≡ slice_index (front.now ++ back.now) i }
{
    if i < front.len() {
        front[i]
    } else {
        back[i - front.len()]
    }
}

/// Reads the digits of two slices, one slice after the other, as one integer. Returns `None` if it
/// has more than 18 digits, not counting leading zeros.
pub(crate) fn value_of(front: &[u8], back: &[u8]) -> Option<u64>
    requires front { AllDigits 10 front.now }
    requires back { AllDigits 10 back.now }
    ensures { let value = digits_value 10 (front.now ++ back.now) in
        SomeIff result (value < 10 ^ 18) value }
{
    let mut value: u64 = 0;
    for i in 0..front.len() + back.len() {
        if value >= 100_000_000_000_000_000 {
            return None;
        }
        value = value * 10 + (byte_at(front, back, i) - b'0') as u64;
    }
    Some(value)
}

impl<'a> Term<'a> {
    /// Returns the digits of a numeral, read as an integer, times `10^tens`.
    pub(crate) fn of(numeral: &Numeral<'a>, tens: u128) -> Term<'a>
        requires { tens < 10 ^ 33 }
        ensures { result ≡ digits_of numeral.now * 10 ^ tens }
    {
        Term {
            whole: numeral.whole(),
            fraction: numeral.fraction(),
            tens,
        }
    }

    /// Returns `10^tens`.
    pub(crate) fn ten(tens: u128) -> Term<'static>
        requires { tens < 10 ^ 33 }
        ensures { result ≡ 10 ^ tens }
    {
        Term {
            whole: b"1",
            fraction: b"",
            tens,
        }
    }

    /// Returns a digit position above all digits that are not 0. Position 0 is the last digit.
    pub(crate) fn top(&self) -> u128
        ensures above { self.now < 10 ^ result }
        ensures bound { result < 10 ^ 34 }
    {
        (self.whole.len() + self.fraction.len()) as u128 + self.tens
    }

    /// Returns a position `p`, at most `place`, such that all digits at the positions `p..place`
    /// are 0. Position 0 is the last digit.
    pub(crate) fn zeros_from(&self, place: u128) -> u128
        ensures within { result ≤ place }
        ensures zeros { (p : ℕ) → result ≤ p → p ≤ place
            → self.now / 10 ^ p ≡ self.now / 10 ^ place * 10 ^ (place - p) }
    {
        let end = (self.whole.len() + self.fraction.len()) as u128 + self.tens;
        if place <= self.tens {
            0
        } else {
            place.min(end)
        }
    }

    /// Returns the digit at a position. Position 0 is the last digit, and digits above the first
    /// are 0.
    pub(crate) fn digit(&self, place: u128) -> u128
        ensures { result ≡ self.now / 10 ^ place % 10 }
    {
        if place < self.tens {
            return 0;
        }
        let behind = place - self.tens;
        let len = self.whole.len() + self.fraction.len();
        if behind >= len as u128 {
            return 0;
        }
        let i = len - 1 - behind as usize;
        (byte_at(self.whole, self.fraction, i) - b'0') as u128
    }
}
