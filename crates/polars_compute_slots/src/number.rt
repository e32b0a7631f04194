//! The trait `UniqueNumber`: number types whose distinct values can be collected.

ghost use Rattle.std.specs.Prelude.{◌≡◌, ◌≤ℤ◌, ◌^◌, pos, neg_ℤ};

use num_traits::Zero;
use polars_arrays_numbers::native_type::NativeType;

/// A type of integers of 8 to 64 bits whose distinct values can be collected.
pub trait UniqueNumber: NativeType + Zero {
    /// Returns the number as an `i128`.
    fn whole(self) -> i128
        ensures number { result ≡ Self.value self }
        ensures least { Self.low ≤ℤ Self.value self }
        ensures greatest { Self.value self ≤ℤ Self.high }
        ensures narrow { (neg_ℤ (pos (2 ^ 64)) ≤ℤ result) × (result ≤ℤ pos (2 ^ 64)) };

    /// Converts an `i128` to the type. The number must lie within the bounds of the type.
    fn from_whole(number: i128) -> Self
        requires least { Self.low ≤ℤ number }
        requires greatest { number ≤ℤ Self.high }
        ensures { Self.value result ≡ number };
}

impl UniqueNumber for i8 {
    #[inline(always)]
    fn whole(self) -> i128 {
        i128::from(self)
    }

    #[inline(always)]
    fn from_whole(number: i128) -> i8 {
        number as i8
    }
}

impl UniqueNumber for i16 {
    #[inline(always)]
    fn whole(self) -> i128 {
        i128::from(self)
    }

    #[inline(always)]
    fn from_whole(number: i128) -> i16 {
        number as i16
    }
}

impl UniqueNumber for i32 {
    #[inline(always)]
    fn whole(self) -> i128 {
        i128::from(self)
    }

    #[inline(always)]
    fn from_whole(number: i128) -> i32 {
        number as i32
    }
}

impl UniqueNumber for i64 {
    #[inline(always)]
    fn whole(self) -> i128 {
        i128::from(self)
    }

    #[inline(always)]
    fn from_whole(number: i128) -> i64 {
        number as i64
    }
}

impl UniqueNumber for u8 {
    #[inline(always)]
    fn whole(self) -> i128 {
        i128::from(self)
    }

    #[inline(always)]
    fn from_whole(number: i128) -> u8 {
        number as u8
    }
}

impl UniqueNumber for u16 {
    #[inline(always)]
    fn whole(self) -> i128 {
        i128::from(self)
    }

    #[inline(always)]
    fn from_whole(number: i128) -> u16 {
        number as u16
    }
}

impl UniqueNumber for u32 {
    #[inline(always)]
    fn whole(self) -> i128 {
        i128::from(self)
    }

    #[inline(always)]
    fn from_whole(number: i128) -> u32 {
        number as u32
    }
}

impl UniqueNumber for u64 {
    #[inline(always)]
    fn whole(self) -> i128 {
        i128::from(self)
    }

    #[inline(always)]
    fn from_whole(number: i128) -> u64 {
        number as u64
    }
}
