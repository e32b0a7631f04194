//! Reductions of a column to one number.

ghost use Rattle.std.specs.Prelude.{◌≡◌, option_map};
ghost use Rattle.num_traits.specs.Laws.{bit_len};
ghost use Rattle.arrow_columns.specs.Reductions.{joins_bits, sum_if_any};
ghost use Rattle.polars_arrays_flat.specs.ArrayRows.{number_rows};
ghost use Rattle.polars_compute_reductions.specs.Folds.{folded_if_any};
ghost use Rattle.polars_compute_reductions.specs.Bitwise.{number_bits, reduced};

use crate::column::Column;
use num_traits::Zero;
use polars_arrays_numbers::native_type::NativeType;
use polars_compute_reductions::bit_number::BitNumber;
use polars_compute_reductions::bit_operators::{And, Or, Xor};
use polars_compute_reductions::fold::fold_under;
use polars_compute_reductions::operator::Operator;
use polars_compute_reductions::sum::{Sum, WrappingAdd};

// Folds the numbers of the present rows with an operator, or returns `None` if no row is present.
fn reduce<T: NativeType, O: Operator<T>>(operator: &O, column: &Column<'_, T>) -> Option<T>
    ensures { option_map T.value result ≡ folded_if_any O.joined (O.neutral operator.now)
        (number_rows T.value column.now) }
{
    let validity = column.validity();
    if column.null_count() == column.len() {
        return None;
    }
    Some(fold_under(operator, column.values(), validity))
}

/// Returns the sum of the present rows, wrapped to the type, or `None` if no row is present.
pub fn sum<T: NativeType + WrappingAdd + Zero>(column: &Column<'_, T>) -> Option<T>
    ensures { option_map T.value result ≡ sum_if_any T.low (bit_len T.width)
        (number_rows T.value column.now) }
{
    reduce(&Sum, column)
}

/// An operator that joins two numbers bit by bit.
#[derive(Clone, Copy, PartialEq, Eq, Debug)]
pub enum BitOperator {
    And,
    Or,
    Xor,
}

/// Joins the numbers of the present rows bit by bit, or returns `None` if no row is present. For
/// example, `And` of the rows 6, null and 3 is 2.
pub fn reduce_bits<T: BitNumber>(operator: BitOperator, column: &Column<'_, T>) -> Option<T>
    ensures { option_map (λ x. number_bits (bit_len T.width) (T.value x)) result
        ≡ reduced (joins_bits operator) (bit_len T.width) (number_rows T.value column.now) }
{
    match operator {
        BitOperator::And => reduce(&And, column),
        BitOperator::Or => reduce(&Or, column),
        BitOperator::Xor => reduce(&Xor, column),
    }
}
