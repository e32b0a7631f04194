//! The trait `WrappingNumber`: number types with wrapping arithmetic.

ghost use Rattle.std.specs.Prelude.{◌≡◌, ℤ, refl};
ghost use Rattle.std.specs.Int.{w8, w16, w32, w64};
ghost use Rattle.num_traits.specs.Laws.{bit_len};
ghost use Rattle.polars_arrays_numbers.specs.Wrapping.{HasAllOf, IsWrapped, wrapped};
ghost use Rattle.polars_arrays_numbers.specs.WrappingLaws.{signed_wrapped, unsigned_wrapped};

use num_traits::{Bounded, FixedWidth};

/// A type of integers of 8 to 64 bits with wrapping arithmetic.
pub trait WrappingNumber: FixedWidth + Bounded {
    // The type has all numbers from `low` to `high`: 2 to the power of its width in bits.
    ghost range_law: { HasAllOf Self.low Self.high (bit_len Self.width) };

    // Arithmetic of the type wraps as `wrapped` does.
    ghost wrapped_law: { (n : ℤ) → Self.wrap n ≡ wrapped Self.low (bit_len Self.width) n };
}

/// States that a whole number wrapped to a type of n bits is the only number of the type that is
/// congruent to the whole number modulo 2^n. Does nothing at run time.
pub fn law_wrapped<T: WrappingNumber>()
    ensures congruent { (n : ℤ)
        → IsWrapped T.low T.high (bit_len T.width) n (wrapped T.low (bit_len T.width) n) }
    ensures only { (n x : ℤ) → IsWrapped T.low T.high (bit_len T.width) n x → x
        ≡ wrapped T.low (bit_len T.width) n }
{}

impl WrappingNumber for i8 {
    ghost range_law = { refl };

    ghost wrapped_law = { signed_wrapped w8 };
}

impl WrappingNumber for i16 {
    ghost range_law = { refl };

    ghost wrapped_law = { signed_wrapped w16 };
}

impl WrappingNumber for i32 {
    ghost range_law = { refl };

    ghost wrapped_law = { signed_wrapped w32 };
}

impl WrappingNumber for i64 {
    ghost range_law = { refl };

    ghost wrapped_law = { signed_wrapped w64 };
}

impl WrappingNumber for isize {
    ghost range_law = { refl };

    ghost wrapped_law = { signed_wrapped w64 };
}

impl WrappingNumber for u8 {
    ghost range_law = { refl };

    ghost wrapped_law = { unsigned_wrapped 8 };
}

impl WrappingNumber for u16 {
    ghost range_law = { refl };

    ghost wrapped_law = { unsigned_wrapped 16 };
}

impl WrappingNumber for u32 {
    ghost range_law = { refl };

    ghost wrapped_law = { unsigned_wrapped 32 };
}

impl WrappingNumber for u64 {
    ghost range_law = { refl };

    ghost wrapped_law = { unsigned_wrapped 64 };
}

impl WrappingNumber for usize {
    ghost range_law = { refl };

    ghost wrapped_law = { unsigned_wrapped 64 };
}
