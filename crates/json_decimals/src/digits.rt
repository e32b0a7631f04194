//! The digits of a number's text, before and after its point.

ghost use Rattle.std.specs.Prelude.{◌≡◌, ◌<◌, ◌≤◌, ◌++◌, length, slice_index, slice_range, OnOk};
ghost use Rattle.json_decimals.specs.Ranges.{IsEnd, IsStart};

use fast_float::Numeral;
use std::alloc::AllocError;
use std::marker::Model;

/// The digits of a number's text: those before its point (`whole`), followed by those after it
/// (`fraction`).
#[derive(Drop)]
pub(crate) struct Digits<'a> {
    whole: &'a [u8],
    fraction: &'a [u8],
}

impl<'a> Model for Digits<'a> {
    ghost use Rattle.std.specs.Prelude.{◌++◌, List, ℕ};

    ghost Value = { List ℕ };

    ghost view = { λ d. d.whole.now ++ d.fraction.now };
}

impl<'a> Digits<'a> {
    /// Returns the digits of a numeral.
    pub(crate) fn of(numeral: &Numeral<'a>) -> Digits<'a>
        ensures { result ≡ numeral.now.whole ++ numeral.now.fraction }
    {
        Digits {
            whole: numeral.whole(),
            fraction: numeral.fraction(),
        }
    }

    /// Returns the number of digits.
    pub(crate) fn len(&self) -> usize
        ensures { result ≡ length self.now }
    {
        self.whole.len() + self.fraction.len()
    }

    /// Returns the digit at index `i`, as an ASCII byte.
    fn at(&self, i: usize) -> u8
        requires { i < length self.now }
        ensures { result ≡ slice_index self.now i }
    {
        if i < self.whole.len() {
            self.whole[i]
        } else {
            self.fraction[i - self.whole.len()]
        }
    }

    /// Returns the index of the first digit that is not 0, or the number of digits if all are 0.
    pub(crate) fn start(&self) -> usize
        ensures { IsStart self.now result }
    {
        let mut n = 0;
        while n < self.len() && self.at(n) == b'0' {
            n += 1;
        }
        n
    }

    /// Returns the index after the last digit that is not 0, or 0 if all are 0.
    pub(crate) fn end(&self) -> usize
        ensures { IsEnd self.now result }
    {
        let mut n = self.len();
        while n > 0 && self.at(n - 1) == b'0' {
            n -= 1;
        }
        n
    }

    /// Appends the digits at the indices `from..to` to `out`.
    pub(crate) fn push(&self, out: &mut Vec<u8>, from: usize, to: usize) -> Result<(), AllocError>
        requires ordered { from ≤ to }
        requires within { to ≤ length self.now }
        ensures { OnOk result
            (out.new.items ≡ out.old.items ++ slice_range self.now from to) }
    {
        for i in from..to {
            out.push(self.at(i))?;
        }
        Ok(())
    }
}
