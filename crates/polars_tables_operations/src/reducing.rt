//! Reduces the present rows of an array to one row.

ghost use Rattle.std.specs.Prelude.{◌≡◌, option_map};
ghost use Rattle.polars_arrays_flat.specs.StoredRows.{rows_under};
ghost use Rattle.polars_compare_leaves.specs.Order.{row_greater, row_less};
ghost use Rattle.polars_compute_reductions.specs.Bitwise.{row_bits};
ghost use Rattle.polars_tables_operations.specs.Bits.{bits_row};
ghost use Rattle.polars_tables_operations.specs.Reducing.{best_row, reduction_of};
ghost use Rattle.polars_tables_rows.specs.Types.{width_of};

use crate::kernel_array::KernelArray;
use crate::operation::Reduction;

// Returns `found` unchanged. The clause `bits` adds a fact that the proof of `reduce` needs: a row
// that is converted to bits, and back to a row, is the same row.
fn unchanged<A: KernelArray>(found: Option<A::Value>) -> Option<A::Value>
    ensures same { result ≡ found }
    ensures bits { option_map A.value_row result
        ≡ option_map (bits_row A.kind)
        (option_map (λ x. row_bits (width_of A.kind) (A.value_row x)) found) }
{
    match found {
        Some(value) => {
            A::law_bits(value);
            Some(value)
        }
        None => None,
    }
}

/// Reduces the present rows of an array to one value. Returns `None` if no row is present.
pub fn reduce<A: KernelArray>(reduction: Reduction, array: &A) -> Option<A::Value>
    ensures { option_map A.value_row result
        ≡ reduction_of reduction A.kind (rows_under (A.mask array.now) (A.slots array.now)) }
{
    match reduction {
        Reduction::And => unchanged::<A>(array.reduce_and()),
        Reduction::Or => unchanged::<A>(array.reduce_or()),
        Reduction::Xor => unchanged::<A>(array.reduce_xor()),
        Reduction::Least => array.min_ignore_nan_kernel(),
        Reduction::Greatest => array.max_ignore_nan_kernel(),
    }
}

/// Returns the least and the greatest row of an array. Returns `None` if no row is present.
pub fn find_extremes<A: KernelArray>(array: &A) -> Option<(A::Value, A::Value)>
    ensures least { option_map (λ pair. A.value_row pair.0) result
        ≡ best_row row_less (rows_under (A.mask array.now) (A.slots array.now)) }
    ensures greatest { option_map (λ pair. A.value_row pair.1) result
        ≡ best_row row_greater (rows_under (A.mask array.now) (A.slots array.now)) }
{
    array.min_max_ignore_nan_kernel()
}
