//! The kinds of arrays that have a kernel for each operation on rows of any type.

ghost use Rattle.std.specs.Prelude.{◌≡◌, length, true, refl};
ghost use Rattle.std.proofs.Common.{sym};
ghost use Rattle.polars_arrays_flat.specs.Row.{Int, Truth};
ghost use Rattle.polars_arrays_flat.specs.StoredRows.{rows_under};
ghost use Rattle.polars_compute_reductions.specs.Bitwise.{row_bits};
ghost use Rattle.polars_tables_rows.specs.Types.{width_of};
ghost use Rattle.polars_tables_operations.specs.Bits.{bits_row};
ghost use Rattle.polars_tables_operations.specs.Stored.{AreValues, StoresValues};
ghost use Rattle.polars_tables_operations.specs.StoredLaws.{as_long, numbers_are_values};
ghost use Rattle.polars_tables_operations.specs.StoredLaws.{stores-map, truths_are_values};

use crate::line_number::LineNumber;
use polars_arrays_flat::boolean::BooleanArray;
use polars_arrays_flat::primitive::PrimitiveArray;
use polars_compare_equality::kernel::TotalEqKernel;
use polars_compare_extremes::kernel::MinMaxKernel;
use polars_compare_order::kernel::TotalOrdKernel;
use polars_compute_reductions::bitwise::BitwiseKernel;
use polars_tables_rows::row_array::RowArray;

/// A kind of array that has a kernel for each operation on rows of any type. The scalars of all
/// these kernels have the type `RowArray::Value`.
pub trait KernelArray: RowArray
    + TotalEqKernel<Scalar = <Self as RowArray>::Value>
    + TotalOrdKernel<Scalar = <Self as RowArray>::Value>
    + BitwiseKernel<Scalar = <Self as RowArray>::Value>
    + MinMaxKernel<Scalar = <Self as RowArray>::Value> {
    /// States that the bits of a value, read as a row again, give the row of the value. Does
    /// nothing at run time.
    fn law_bits(value: Self::Value)
        ensures { bits_row Self.kind (row_bits (width_of Self.kind) (Self.value_row value))
            ≡ Self.value_row value };

    // Values are never null. The stored rows of an array are values, also those under nulls.
    ghost values_law: { AreValues Self.value_row };

    ghost stored_law: { (a : Self) → StoresValues Self.value_row (Self.slots a) };

    // A value stands for the same row as a scalar and as a stored value.
    ghost eq_scalar_law: { (s : Self.Value) → Self.TotalEqKernel.scalar_row s ≡ Self.value_row s };

    ghost ord_scalar_law: { (s : Self.Value) → Self.TotalOrdKernel.scalar_row s
        ≡ Self.value_row s };

    ghost bit_scalar_law: { (s : Self.Value) → Self.BitwiseKernel.scalar_row s ≡ Self.value_row s };

    ghost extreme_scalar_law: { (s : Self.Value) → Self.MinMaxKernel.scalar_row s
        ≡ Self.value_row s };

    // The contracts of kernels speak of the rows of the array, and of the width of its type.
    ghost bit_rows_law: { (a : Self) → Self.BitwiseKernel.rows a
        ≡ rows_under (Self.mask a) (Self.slots a) };

    ghost extreme_rows_law: { (a : Self) → Self.MinMaxKernel.rows a
        ≡ rows_under (Self.mask a) (Self.slots a) };

    ghost bit_width_law: { Self.BitwiseKernel.width ≡ width_of Self.kind };

    // Any two arrays of equal length can be compared, and any array with any scalar.
    ghost comparable_law: { (a b : Self) → length (Self.slots a) ≡ length (Self.slots b)
        → Self.TotalEqKernel.comparable a b };

    ghost fits_law: { (a : Self) (s : Self.Value) → Self.TotalEqKernel.fits a s };

    ghost good_scalar_law: { (s : Self.Value) → Self.TotalEqKernel.good_scalar s };

    ghost broadcasts_law: { Self.TotalEqKernel.broadcasts ≡ true };

    // Each array is good, and any two arrays have the same type.
    ghost good_law: { (a : Self) → Self.good a };

    ghost one_type_law: { (a b : Self) → Self.same_type a b };
}

impl<T: LineNumber> KernelArray for PrimitiveArray<T> {
    fn law_bits(value: T) {
        value.law_number_bits();
    }

    ghost values_law = { numbers_are_values T.value };

    ghost stored_law = { λ a. stores-map (λ x. Int (T.value x)) a.values };

    ghost eq_scalar_law = { λ s. refl };

    ghost ord_scalar_law = { λ s. refl };

    ghost bit_scalar_law = { λ s. refl };

    ghost extreme_scalar_law = { λ s. refl };

    ghost bit_rows_law = { λ a. refl };

    ghost extreme_rows_law = { λ a. refl };

    ghost bit_width_law = { sym T.width_law };

    ghost comparable_law = { λ a b e. as_long (λ x. Int (T.value x)) a.values b.values e };

    ghost fits_law = { λ a s. tt };

    ghost good_scalar_law = { λ s. tt };

    ghost broadcasts_law = { refl };

    ghost good_law = { λ a. tt };

    ghost one_type_law = { λ a b. tt };
}

impl KernelArray for BooleanArray {
    fn law_bits(_value: bool) {}

    ghost values_law = { truths_are_values };

    ghost stored_law = { λ a. stores-map Truth a.values };

    ghost eq_scalar_law = { λ s. refl };

    ghost ord_scalar_law = { λ s. refl };

    ghost bit_scalar_law = { λ s. refl };

    ghost extreme_scalar_law = { λ s. refl };

    ghost bit_rows_law = { λ a. refl };

    ghost extreme_rows_law = { λ a. refl };

    ghost bit_width_law = { refl };

    ghost comparable_law = { λ a b e. as_long Truth a.values b.values e };

    ghost fits_law = { λ a s. tt };

    ghost good_scalar_law = { λ s. tt };

    ghost broadcasts_law = { refl };

    ghost good_law = { λ a. tt };

    ghost one_type_law = { λ a b. tt };
}
