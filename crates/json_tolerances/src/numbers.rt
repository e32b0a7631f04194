//! The numbers of JSON as exact decimals.

ghost use Rattle.std.specs.Bool.{beq};
ghost use Rattle.std.specs.Option.{SomeIff};
ghost use Rattle.std.specs.Prelude.{◌≡◌, ◌+◌, ◌*◌, ◌^◌, ◌<◌, IfSome, MatchOption};
ghost use Rattle.json_decimals.specs.Decimals.{decimal_of};
ghost use Rattle.json_decimals.specs.Texts.{HasWideExponent};

use crate::terms::{Term, value_of};
use fast_float::Numeral;
use json_decimals::numbers::{is_negative, numeral_of};
use json_decimals::tens::{Tens, tens_of};
use std::marker::Model;

/// A number of JSON as an exact decimal: a sign, digits, and a power of ten. It borrows the digits
/// from the text.
#[derive(Drop)]
pub(crate) struct Number<'a> {
    negative: bool,
    numeral: Numeral<'a>,
    tens: Tens,
}

impl<'a> Model for Number<'a> {
    ghost use Rattle.std.specs.Prelude.{◌+◌, ◌^◌, ◌<◌};
    ghost use Rattle.fast_float.specs.Text.{digits_of};
    ghost use Rattle.json_decimals.specs.Decimals.{Decimal};

    ghost Value = { Decimal };

    ghost view = { λ n. record {
      negative = n.negative;
      coefficient = digits_of n.numeral;
      up = n.tens.up;
      down = n.tens.down;
    } };

    ghost invariant = { λ n. n.tens.up + n.tens.down < 10 ^ 31 };
}

impl<'a> Number<'a> {
    /// Parses a number, or returns `None` if its exponent has more than 30 digits, not counting
    /// leading zeros. If the text is not a number, the longest number at its beginning is used, or
    /// else 0.
    #[tactic(auto, unfolding(json_decimals::specs::Decimals::decimal_of))]
    pub(crate) fn read(text: &'a str) -> Option<Number<'a>>
        ensures number { MatchOption result (HasWideExponent text.now)
            (λ n. n ≡ decimal_of text.now) }
        ensures narrow { IfSome result (λ _. ¬ HasWideExponent text.now) }
    {
        let bytes = text.as_bytes();
        let numeral = numeral_of(bytes);
        let tens = tens_of(&numeral)?;
        Some(Number {
            negative: is_negative(bytes),
            numeral,
            tens,
        })
    }

    /// Returns whether the number has a minus sign.
    pub(crate) fn is_negative(&self) -> bool
        ensures { result ≡ self.now.negative }
    {
        self.negative
    }

    /// Returns whether both numbers have a minus sign, or neither has one.
    pub(crate) fn has_sign_of(&self, other: &Number<'_>) -> bool
        ensures { result ≡ beq self.now.negative other.now.negative }
    {
        self.negative == other.negative
    }

    /// Returns the power of ten by which the digits are multiplied.
    pub(crate) fn tens(&self) -> Tens
        ensures up { result.up ≡ self.now.up }
        ensures down { result.down ≡ self.now.down }
        ensures bound { result.up + result.down < 10 ^ 31 }
    {
        self.tens
    }

    /// Returns the digits, read as an integer, or `None` if there are more than 18, not counting
    /// leading zeros.
    pub(crate) fn coefficient(&self) -> Option<u64>
        ensures { SomeIff result (self.now.coefficient < 10 ^ 18) self.now.coefficient }
    {
        value_of(self.numeral.whole(), self.numeral.fraction())
    }

    /// Returns the digits, read as an integer, times `10^(up + more)`, where `up` is
    /// `self.tens().up`.
    pub(crate) fn times_tens(&self, more: u128) -> Term<'a>
        requires { more < 10 ^ 32 }
        ensures { result ≡ self.now.coefficient * 10 ^ (self.now.up + more) }
    {
        Term::of(&self.numeral, self.tens.up + more)
    }
}
