//! The trait `BitNumber`: number types whose bits are counted and combined.

use crate::wrapping::WrappingNumber;
use num_traits::PrimInt;
use polars_arrays_numbers::native_type::NativeType;

/// A type of integers of 8 to 64 bits, whose bits can be counted and combined.
pub trait BitNumber: NativeType + WrappingNumber + PrimInt {
    /// States that the number lies within the bounds of its type. Does nothing at run time.
    fn law_fits(self)
        ensures { Self.fits (Self.value self) };
}

impl BitNumber for i8 {
    #[inline(always)]
    fn law_fits(self) {}
}

impl BitNumber for i16 {
    #[inline(always)]
    fn law_fits(self) {}
}

impl BitNumber for i32 {
    #[inline(always)]
    fn law_fits(self) {}
}

impl BitNumber for i64 {
    #[inline(always)]
    fn law_fits(self) {}
}

impl BitNumber for u8 {
    #[inline(always)]
    fn law_fits(self) {}
}

impl BitNumber for u16 {
    #[inline(always)]
    fn law_fits(self) {}
}

impl BitNumber for u32 {
    #[inline(always)]
    fn law_fits(self) {}
}

impl BitNumber for u64 {
    #[inline(always)]
    fn law_fits(self) {}
}
