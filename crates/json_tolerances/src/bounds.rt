//! Bounds for the difference of two numbers.

ghost use Rattle.std.specs.Prelude.{◌≡◌, ◌+◌, ◌^◌, ◌<◌, false, IfErr, IfOk};
ghost use Rattle.json.specs.Print.{IsNumber};
ghost use Rattle.json_decimals.specs.Decimals.{decimal_of};
ghost use Rattle.json_tolerances.specs.Errors.{IsFaultOf};

use crate::error::BoundError;
use crate::numbers::Number;
use json::is_number;
use json_decimals::tens::Tens;
use std::marker::Model;

/// A bound for the difference of two numbers: the decimal `coefficient * 10^up / 10^down`. It is
/// not negative, and `coefficient` has at most 18 digits.
#[derive(Drop)]
pub struct Bound {
    coefficient: u64,
    up: u128,
    down: u128,
}

impl Model for Bound {
    ghost use Rattle.std.specs.Prelude.{◌+◌, ◌^◌, ◌<◌, false};
    ghost use Rattle.json_decimals.specs.Decimals.{Decimal};

    ghost Value = { Decimal };

    ghost view = { λ b. record {
      negative = false;
      coefficient = b.coefficient;
      up = b.up;
      down = b.down;
    } };

    ghost invariant = { λ b. b.up + b.down < 10 ^ 31 };
}

impl Bound {
    /// Parses a bound.
    ///
    /// Fails with `NotANumber` if the text is not a JSON number. Otherwise fails with
    /// `WideExponent` if the exponent has more than 30 digits, with `Negative` if the text begins
    /// with a minus sign, or with `TooLong` if the number has more than 18 digits. Leading zeros
    /// don't count.
    pub fn read(text: &str) -> Result<Bound, BoundError>
        ensures bound { IfOk result (λ bound. bound ≡ decimal_of text.now) }
        ensures number { IfOk result (λ _. IsNumber text.now) }
        ensures fault { IfErr result (IsFaultOf text.now) }
    {
        if !is_number(text) {
            return Err(BoundError::NotANumber);
        }
        let Some(number) = Number::read(text) else {
            return Err(BoundError::WideExponent);
        };
        if number.is_negative() {
            return Err(BoundError::Negative);
        }
        let Some(coefficient) = number.coefficient() else {
            return Err(BoundError::TooLong);
        };
        let tens = number.tens();
        Ok(Bound {
            coefficient,
            up: tens.up,
            down: tens.down,
        })
    }

    /// Returns the digits of the bound, read as an integer.
    pub(crate) fn coefficient(&self) -> u64
        ensures { result ≡ self.now.coefficient }
    {
        self.coefficient
    }

    /// Returns the power of ten by which the digits are multiplied.
    pub(crate) fn tens(&self) -> Tens
        ensures up { result.up ≡ self.now.up }
        ensures down { result.down ≡ self.now.down }
        ensures bound { result.up + result.down < 10 ^ 31 }
    {
        Tens {
            up: self.up,
            down: self.down,
        }
    }
}
