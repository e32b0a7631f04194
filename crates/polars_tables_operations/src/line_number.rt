//! The number types that a line can name, with all traits that the operations need.

ghost use Rattle.std.specs.Prelude.{◌≡◌, false, refl};
ghost use Rattle.polars_arrays_flat.specs.Row.{Int};
ghost use Rattle.polars_compute_reductions.specs.Bitwise.{number_bits};
ghost use Rattle.polars_tables_operations.specs.Bits.{bits_row};
ghost use Rattle.polars_tables_rows.specs.Types.{is_boolean, width_of};

use polars_compute_arithmetic::arithmetic::HasPrimitiveArithmeticKernel;
use polars_compute_reductions::bit_number::BitNumber;
use polars_compute_reductions::sum::WrappingSum;
use polars_compute_reductions::wrapping::law_wrapped;
use polars_compute_slots::number::UniqueNumber;
use polars_tables_rows::row_number::RowNumber;

/// A number type that a line can name, with all traits that the operations need.
pub trait LineNumber: RowNumber
    + HasPrimitiveArithmeticKernel
    + BitNumber
    + WrappingSum
    + UniqueNumber
    + 'static {
    // The number type is not that of truth values.
    ghost number_kind_law: { is_boolean Self.kind ≡ false };

    /// States that the bits of a number, read as a number again, give the same number. Does nothing
    /// at run time.
    final fn law_number_bits(self)
        ensures { bits_row Self.kind (number_bits (width_of Self.kind) (Self.value self))
            ≡ Int (Self.value self) }
    {
        let _ = self.whole();
        law_wrapped::<Self>();
    }
}

impl LineNumber for i8 {
    ghost number_kind_law = { refl };
}

impl LineNumber for i16 {
    ghost number_kind_law = { refl };
}

impl LineNumber for i32 {
    ghost number_kind_law = { refl };
}

impl LineNumber for i64 {
    ghost number_kind_law = { refl };
}

impl LineNumber for u8 {
    ghost number_kind_law = { refl };
}

impl LineNumber for u16 {
    ghost number_kind_law = { refl };
}

impl LineNumber for u32 {
    ghost number_kind_law = { refl };
}

impl LineNumber for u64 {
    ghost number_kind_law = { refl };
}
