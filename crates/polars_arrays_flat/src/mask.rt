//! Masks: bits that say which rows of an array are present.

ghost use Rattle.std.specs.Prelude.{◌≡◌, ◌+◌, ◌≤◌, ◌↔◌, Some, None, IfSome, IsTrue, length};
ghost use Rattle.std.specs.Option.{option_copied};
ghost use Rattle.polars_arrays_flat.specs.Validity.{is_present, validity_window, window};

use polars_arrays_bits::bit_mask::BitMask;
use polars_arrays_bits::bitmap::Bitmap;
use std::marker::Model;

// The bits of a mask: none, borrowed or owned.
#[derive(Drop)]
pub(crate) enum Kept<'a> {
    All,
    Lent(BitMask<'a>),
    Owned(Bitmap),
}

/// A mask: a bit for each row, 1 if the row is present. A mask without bits says that all rows are
/// present. The bits are owned, or borrowed from an array.
#[derive(Drop)]
pub struct Mask<'a> {
    kept: Kept<'a>,
}

impl<'a> Model for Mask<'a> {
    ghost use Rattle.std.specs.Prelude.{Bool, List, Option};
    ghost use Rattle.polars_arrays_flat.specs.Masks.{kept_bits};

    ghost Value = { Option (List Bool) };

    ghost view = { λ m. kept_bits m.kept };
}

impl<'a> Mask<'a> {
    /// Creates a mask without bits: all rows are present.
    #[inline(always)]
    pub fn all() -> Mask<'a>
        ensures { result ≡ None }
    {
        Mask { kept: Kept::All }
    }

    /// Creates a mask that borrows the bits of a validity. Without a validity, all rows are
    /// present.
    #[inline(always)]
    pub fn lent(validity: Option<&'a Bitmap>) -> Mask<'a>
        ensures { result ≡ option_copied validity.entry }
    {
        let kept = match validity {
            Some(bits) => Kept::Lent(BitMask::from_bitmap(bits)),
            None => Kept::All,
        };
        Mask { kept }
    }

    /// Creates a mask for the `n` rows from row `at` on. Borrows their bits from `bits`.
    #[inline(always)]
    pub fn lent_window(bits: &'a Bitmap, at: usize, n: usize) -> Mask<'a>
        requires { at + n ≤ length bits.now }
        ensures { result ≡ Some (window at n bits.now) }
    {
        Mask {
            kept: Kept::Lent(BitMask::from_bitmap(bits).window(at, n)),
        }
    }

    /// Creates a mask that owns `bits`.
    pub fn owned(bits: Bitmap) -> Mask<'a>
        ensures { result ≡ Some bits }
    {
        Mask {
            kept: Kept::Owned(bits),
        }
    }

    /// Returns the bits, or `None` if the mask has no bits, so that all rows are present.
    #[inline(always)]
    pub fn bits(&self) -> Option<BitMask<'_>>
        ensures { result ≡ self.now }
    {
        match &self.kept {
            Kept::All => None,
            Kept::Lent(bits) => Some(bits.window(0, bits.len())),
            Kept::Owned(bits) => Some(BitMask::from_bitmap(bits)),
        }
    }

    /// Returns whether the mask has no bits, so that all rows are present. Returns `false` for a
    /// mask whose bits are all 1.
    pub fn is_all(&self) -> bool
        ensures { IsTrue result ↔ (self.now ≡ None) }
    {
        matches!(self.kept, Kept::All)
    }

    /// Returns whether row `i` is present. Returns `false` if the mask has bits, but none for row
    /// `i`.
    pub fn is_present(&self, i: usize) -> bool
        ensures { result ≡ is_present self.now i }
    {
        match &self.kept {
            Kept::All => true,
            Kept::Lent(bits) => i < bits.len() && bits.get(i),
            Kept::Owned(bits) => i < bits.len() && bits.get_bit(i),
        }
    }
}
