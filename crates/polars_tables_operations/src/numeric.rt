//! Runs the operations on numbers, and formats their results as text.

ghost use Rattle.std.specs.Prelude.{◌≡◌, IfOk, map, Ok};
ghost use Rattle.std.specs.String.{string_bytes};
ghost use Rattle.polars_arrays_flat.specs.ArrayRows.{number_rows};
ghost use Rattle.polars_arrays_flat.specs.Row.{Int};
ghost use Rattle.polars_arrays_numbers.specs.Wrapping.{wrapped};
ghost use Rattle.polars_compute_reductions.specs.Sum.{total};
ghost use Rattle.polars_compute_slots.specs.State.{State};
ghost use Rattle.polars_tables_operations.specs.Answers.{calculation_answer, numeric_answer};
ghost use Rattle.polars_tables_operations.specs.Answers.{scalar_calculation_answer};
ghost use Rattle.polars_tables_operations.specs.Distinct.{of_state};
ghost use Rattle.polars_tables_operations.specs.declared.operation.NumericOperation.TheVariants.{
  Calculate,
};
ghost use Rattle.polars_tables_operations.specs.declared.operation.NumericOperation.TheVariants.{
  CalculateFromScalar,
};
ghost use Rattle.polars_tables_operations.specs.declared.operation.NumericOperation.TheVariants.{
  Change as ChangeRows,
};
ghost use Rattle.polars_tables_operations.specs.declared.operation.NumericOperation.TheVariants.{
  DistinctInRange,
};
ghost use Rattle.polars_tables_operations.specs.declared.operation.NumericOperation.TheVariants.{
  HasAllOfRange,
};
ghost use Rattle.polars_tables_operations.specs.declared.operation.NumericOperation.TheVariants.{
  Sum,
};
ghost use Rattle.polars_tables_operations.specs.declared.operation.Operand.TheVariants.{Rows};
ghost use Rattle.polars_tables_operations.specs.declared.operation.Operand.TheVariants.{Scalar};
ghost use Rattle.polars_tables_rows.specs.Faults.{Tells, of_ends, of_number_scalar, of_one, of_two};
ghost use Rattle.polars_tables_rows.specs.Types.{least_in, width_of};
ghost use Rattle.polars_tables_rows.specs.Written.{row_word};

use crate::answering::write_made;
use crate::calculating::{calculate_from_scalar, calculate_rows, calculate_scalar, change_rows};
use crate::distinct::{answer_distinct, write_all_seen};
use crate::line_number::LineNumber;
use crate::operation::{
    Calculation, Change, Distinct, NumericOperation, Operand, OrderedCalculation,
};
use crate::ranges::state_of;
use polars_arrays_flat::primitive::PrimitiveArray;
use polars_compute_reductions::sum::wrapping_sum_arr;
use polars_compute_unique::primitive::PrimitiveRangedUniqueState;
use polars_tables_rows::fault::LineError;
use polars_tables_rows::row_array::RowArray;
use std::alloc::{AllocError, Global};

// Returns the single list of `lists`. The error is `Length` if there is not exactly one list.
fn into_one<A: Drop>(lists: Vec<A>) -> Result<A, LineError>
    ensures { Tells {Y = A} (λ list. list) (of_one lists.items (λ list. Ok list)) result }
{
    let mut lists = lists;
    let Some(list) = lists.pop() else {
        return Err(LineError::Length);
    };
    if !lists.is_empty() {
        return Err(LineError::Length);
    }
    Ok(list)
}

// Returns the two lists of `lists`. The error is `Length` if there are not exactly two.
fn into_two<A: Drop>(lists: Vec<A>) -> Result<(A, A), LineError>
    ensures { Tells {Y = A × A}
        (λ pair. pair) (of_two lists.items (λ left right. Ok (left, right))) result }
{
    let mut lists = lists;
    let Some(right) = lists.pop() else {
        return Err(LineError::Length);
    };
    let left = into_one(lists)?;
    Ok((left, right))
}

// Returns the number in the only row of a borrowed list. The error is `Length` if the list does not
// have one row, and `Range` if the row is null.
fn lent_scalar<T: LineNumber>(scalars: &PrimitiveArray<T>) -> Result<T, LineError>
    ensures { Tells T.value (of_number_scalar (number_rows T.value scalars.now) (λ n. Ok n))
        result }
{
    if scalars.count() != 1 {
        return Err(LineError::Length);
    }
    match scalars.value(0) {
        Some(scalar) => Ok(scalar),
        None => Err(LineError::Range),
    }
}

// Returns the number in the only row of a list. The error is `Length` if the list does not have one
// row, and `Range` if the row is null.
fn scalar_of<T: LineNumber>(scalars: PrimitiveArray<T>) -> Result<T, LineError>
    ensures { Tells T.value (of_number_scalar (number_rows T.value scalars) (λ n. Ok n)) result }
{
    lent_scalar(&scalars)
}

// Applies the function `change` to each number of a single list, and returns the results as text.
// Fails with `Length` if there is not exactly one list, and with `Memory` if an allocation fails.
#[tactic(auto, using(crate::proofs::Answered::answered))]
fn answer_change<T: LineNumber>(
    alloc: Global,
    change: Change,
    lists: Vec<PrimitiveArray<T>>,
) -> Result<String, LineError>
    ensures { Tells string_bytes
        (numeric_answer (ChangeRows change) T.kind (map (number_rows T.value) lists.items)) result }
{
    let rows = into_one(lists)?;
    write_made(alloc, change_rows(alloc, change, rows))
}

// Calculates with the numbers of two lists, row by row, and returns the results as text. Fails with
// `Length` if their lengths differ, and with `Memory` if an allocation fails.
#[tactic(auto, using(crate::proofs::Answered::answered))]
fn answer_rows<T: LineNumber>(
    alloc: Global,
    calculation: Calculation,
    left: PrimitiveArray<T>,
    right: PrimitiveArray<T>,
) -> Result<String, LineError>
    ensures { Tells string_bytes
        (calculation_answer calculation Rows T.kind (number_rows T.value left)
        (number_rows T.value right)) result }
{
    if left.count() != right.count() {
        drop((left, right));
        return Err(LineError::Length);
    }
    write_made(alloc, calculate_rows(alloc, calculation, left, right))
}

// Calculates with each number of a list on the left, and a scalar on the right, and returns the
// results as text. The scalar is the only row of `scalars`. Fails with `Length` if `scalars` does
// not have one row, with `Range` if this row is null, and with `Memory` if an allocation fails.
#[tactic(auto, using(crate::proofs::Answered::answered))]
fn answer_scalar<T: LineNumber>(
    alloc: Global,
    calculation: Calculation,
    rows: PrimitiveArray<T>,
    scalars: PrimitiveArray<T>,
) -> Result<String, LineError>
    ensures { Tells string_bytes
        (calculation_answer calculation Scalar T.kind (number_rows T.value rows)
        (number_rows T.value scalars)) result }
{
    let scalar = scalar_of(scalars)?;
    write_made(alloc, calculate_scalar(alloc, calculation, rows, scalar))
}

// Calculates with the first of two lists and the second one, and returns the results as text.
// `operand` says whether the second list has a number for each row or one scalar. Fails with
// `Length` if there are not two lists. Other errors are those of `answer_rows` and `answer_scalar`.
fn answer_calculation<T: LineNumber>(
    alloc: Global,
    calculation: Calculation,
    operand: Operand,
    lists: Vec<PrimitiveArray<T>>,
) -> Result<String, LineError>
    ensures { Tells string_bytes
        (numeric_answer (Calculate calculation operand) T.kind
        (map (number_rows T.value) lists.items)) result }
{
    let (left, right) = into_two(lists)?;
    match operand {
        Operand::Rows => answer_rows(alloc, calculation, left, right),
        Operand::Scalar => answer_scalar(alloc, calculation, left, right),
    }
}

// Calculates with a scalar on the left, and each number of a list on the right, and returns the
// results as text. The scalar is the only row of the first list; the numbers are in the second
// list. Fails with `Length` if there are not two lists or the first does not have one row, with
// `Range` if the scalar is null, and with `Memory` if an allocation fails.
#[tactic(auto, using(crate::proofs::Answered::answered))]
fn answer_from_scalar<T: LineNumber>(
    alloc: Global,
    calculation: OrderedCalculation,
    lists: Vec<PrimitiveArray<T>>,
) -> Result<String, LineError>
    ensures { Tells string_bytes
        (numeric_answer (CalculateFromScalar calculation) T.kind
        (map (number_rows T.value) lists.items)) result }
{
    let (scalars, rows) = into_two(lists)?;
    let scalar = scalar_of(scalars)?;
    write_made(
        alloc,
        calculate_from_scalar(alloc, calculation, scalar, rows),
    )
}

// Formats the wrapped sum of the present rows as text. The only error is a failed allocation.
fn write_sum<T: LineNumber>(alloc: Global, rows: &PrimitiveArray<T>) -> Result<String, AllocError>
    ensures { IfOk result
        (λ text. string_bytes text
        ≡ row_word
        (Int (wrapped (least_in T.kind) (width_of T.kind)
        (total (number_rows T.value rows.now))))) }
{
    wrapping_sum_arr(rows).to_string(alloc)
}

// Returns the wrapped sum of a single list as text. Fails with `Length` if there is not exactly one
// list, and with `Memory` if an allocation fails.
fn answer_sum<T: LineNumber>(
    alloc: Global,
    lists: Vec<PrimitiveArray<T>>,
) -> Result<String, LineError>
    ensures { Tells string_bytes (numeric_answer Sum T.kind (map (number_rows T.value) lists.items))
        result }
{
    let rows = into_one(lists)?;
    Ok(write_sum(alloc, &rows)?)
}

// Creates a state that collects distinct rows with numbers in a range, and appends the rows of the
// second list to it. The first list has the two ends of the range. Fails with `Length` if there are
// not two lists. Other errors are those of `state_of`.
fn state_of_lists<T: LineNumber>(
    alloc: Global,
    lists: Vec<PrimitiveArray<T>>,
) -> Result<PrimitiveRangedUniqueState<T>, LineError>
    ensures { Tells {Y = State}
        (λ state. state)
        (of_two (map (number_rows T.value) lists.items)
        (λ ends rows. of_ends ends (λ m n. of_state m n rows (λ s. Ok s)))) result }
{
    let (ends, rows) = into_two(lists)?;
    let state = state_of(alloc, &ends, &rows);
    drop((ends, rows));
    state
}

// Returns the distinct rows of the second list, or their number, as text. The first list has the
// two ends of a range, in which all numbers must lie. The errors are those of `state_of_lists`.
fn answer_range<T: LineNumber>(
    alloc: Global,
    asked: Distinct,
    lists: Vec<PrimitiveArray<T>>,
) -> Result<String, LineError>
    ensures { Tells string_bytes
        (numeric_answer (DistinctInRange asked) T.kind (map (number_rows T.value) lists.items))
        result }
{
    answer_distinct(alloc, asked, state_of_lists(alloc, lists)?)
}

// Returns `true` or `false` as text: whether the second list has every number of a range, and a
// null. The first list has the two ends of the range. The errors are those of `state_of_lists`.
fn answer_all<T: LineNumber>(
    alloc: Global,
    lists: Vec<PrimitiveArray<T>>,
) -> Result<String, LineError>
    ensures { Tells string_bytes
        (numeric_answer HasAllOfRange T.kind (map (number_rows T.value) lists.items)) result }
{
    let state = state_of_lists(alloc, lists)?;
    Ok(write_all_seen(alloc, &state)?)
}

/// Runs an operation on numbers, and returns its result as text. Fails with `Length` if the number
/// of lists or their lengths don't fit the operation. Fails with `Range` if a scalar is null, if
/// the ends of a range are refused (`LineError::Range`), or if a present row lies outside the
/// range. Fails with `Memory` if an allocation fails.
pub fn answer_numeric<T: LineNumber>(
    alloc: Global,
    operation: NumericOperation,
    lists: Vec<PrimitiveArray<T>>,
) -> Result<String, LineError>
    ensures { Tells string_bytes
        (numeric_answer operation T.kind (map (number_rows T.value) lists.items)) result }
{
    match operation {
        NumericOperation::Change(change) => answer_change(alloc, change, lists),
        NumericOperation::Calculate(calculation, operand) => {
            answer_calculation(alloc, calculation, operand, lists)
        }
        NumericOperation::CalculateFromScalar(calculation) => {
            answer_from_scalar(alloc, calculation, lists)
        }
        NumericOperation::Sum => answer_sum(alloc, lists),
        NumericOperation::DistinctInRange(asked) => answer_range(alloc, asked, lists),
        NumericOperation::HasAllOfRange => answer_all(alloc, lists),
    }
}
