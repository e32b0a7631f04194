//! The types of offsets into bytes or items.
ghost use Rattle.std.specs.Prelude.{◌≡◌, ◌≢◌, Some, None};
ghost use Rattle.polars_arrays_numbers.specs.Naturals.{natural_of};

use crate::native_type::NativeType;

/// A type of offsets in the Arrow layout: signed, of 32 or 64 bits.
pub trait Offset: NativeType {
    /// Returns the offset as an index, or `None` if it is negative.
    fn to_place(self) -> Option<usize>
        ensures { result ≡ natural_of (Self.value self) };

    /// Returns the offset as an index, without a check. The offset must not be negative.
    fn place(self) -> usize
        requires { natural_of (Self.value self) ≢ None }
        ensures { natural_of (Self.value self) ≡ Some result };
}

impl Offset for i32 {
    fn to_place(self) -> Option<usize> {
        i64::from(self).to_place()
    }

    #[inline(always)]
    fn place(self) -> usize {
        i64::from(self).place()
    }
}

impl Offset for i64 {
    fn to_place(self) -> Option<usize> {
        usize::try_from(self).ok()
    }

    #[inline(always)]
    fn place(self) -> usize {
        self as usize
    }
}
