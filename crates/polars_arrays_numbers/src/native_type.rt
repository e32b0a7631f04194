//! The types of numbers that arrays hold.
ghost use Rattle.std.specs.Prelude.{◌≡◌, ◌↔◌, ◌<ℤ◌, ◌<◌, ℤ, pos, IsTrue};
ghost use Rattle.num_traits.specs.Laws.{bit_len};
ghost use Rattle.polars_arrays_numbers.specs.Ranges.{greatest_of, least_of};

use num_traits::{Bounded, FixedWidth};

/// An integer type of a fixed width, in two's complement if it is signed.
///
/// In contracts, `T.value x` is the integer that a value `x` of the type `T` stands for.
pub trait NativeType: Copy + Ord + Bounded + FixedWidth + 'static {
    /// Returns the number of bits of a value.
    fn width() -> u32
        ensures { result ≡ bit_len Self.width };

    /// Returns whether the type is signed. Together with the width, this determines the least and
    /// the greatest number of the type.
    fn is_signed() -> bool
        ensures below_zero { IsTrue result ↔ (Self.low <ℤ pos 0) }
        ensures least { Self.low ≡ least_of result (bit_len Self.width) }
        ensures greatest { Self.high ≡ greatest_of result (bit_len Self.width) };
}

/// Returns the least number of a type.
pub fn least_value<T: NativeType>() -> T
    ensures { T.value result ≡ T.low }
{
    T::min_value()
}

/// Returns the greatest number of a type.
pub fn greatest_value<T: NativeType>() -> T
    ensures { T.value result ≡ T.high }
{
    T::max_value()
}

/// Returns whether the values of a type have more than 64 bits.
#[inline(always)]
pub fn has_wide_values<T: NativeType>() -> bool
    ensures { IsTrue result ↔ (64 < bit_len T.width) }
{
    T::width() > u64::BITS
}

impl NativeType for i8 {
    fn width() -> u32 {
        i8::BITS
    }

    fn is_signed() -> bool {
        true
    }
}

impl NativeType for i16 {
    fn width() -> u32 {
        i16::BITS
    }

    fn is_signed() -> bool {
        true
    }
}

impl NativeType for i32 {
    fn width() -> u32 {
        i32::BITS
    }

    fn is_signed() -> bool {
        true
    }
}

impl NativeType for i64 {
    fn width() -> u32 {
        i64::BITS
    }

    fn is_signed() -> bool {
        true
    }
}

impl NativeType for i128 {
    fn width() -> u32 {
        i128::BITS
    }

    fn is_signed() -> bool {
        true
    }
}

impl NativeType for u8 {
    fn width() -> u32 {
        u8::BITS
    }

    fn is_signed() -> bool {
        false
    }
}

impl NativeType for u16 {
    fn width() -> u32 {
        u16::BITS
    }

    fn is_signed() -> bool {
        false
    }
}

impl NativeType for u32 {
    fn width() -> u32 {
        u32::BITS
    }

    fn is_signed() -> bool {
        false
    }
}

impl NativeType for u64 {
    fn width() -> u32 {
        u64::BITS
    }

    fn is_signed() -> bool {
        false
    }
}

impl NativeType for u128 {
    fn width() -> u32 {
        u128::BITS
    }

    fn is_signed() -> bool {
        false
    }
}
