//! Runs the operations on rows of any type, and formats their results as text.

ghost use Rattle.std.specs.Prelude.{◌≡◌, IfOk, map, option_map};
ghost use Rattle.std.specs.String.{string_bytes};
ghost use Rattle.polars_arrays_flat.specs.StoredRows.{rows_under};
ghost use Rattle.polars_tables_operations.specs.Answers.{comparison_answer, general_answer};
ghost use Rattle.polars_tables_operations.specs.Answers.{row_or_none, rows_or_none};
ghost use Rattle.polars_tables_operations.specs.declared.operation.GeneralOperation.TheVariants.{
  Compare,
};
ghost use Rattle.polars_tables_operations.specs.declared.operation.GeneralOperation.TheVariants.{
  CountBits,
};
ghost use Rattle.polars_tables_operations.specs.declared.operation.GeneralOperation.TheVariants.{
  Extremes,
};
ghost use Rattle.polars_tables_operations.specs.declared.operation.GeneralOperation.TheVariants.{
  Reduce,
};
ghost use Rattle.polars_tables_operations.specs.declared.operation.Operand.TheVariants.{Rows};
ghost use Rattle.polars_tables_operations.specs.declared.operation.Operand.TheVariants.{Scalar};
ghost use Rattle.polars_tables_rows.specs.Faults.{Tells};

use crate::answering::write_made;
use crate::comparing::{compare_rows, compare_scalar};
use crate::counting::count_bits;
use crate::kernel_array::KernelArray;
use crate::operation::{BitCount, ComparisonKind, GeneralOperation, Operand, Reduction};
use crate::reducing::{find_extremes, reduce};
use polars_tables_rows::fault::LineError;
use std::alloc::{AllocError, Global};

// Compares two lists row by row, and returns the results as text. Fails with `Length` if their
// lengths differ, and with `Memory` if an allocation fails.
#[tactic(auto, using(crate::proofs::Answered::answered))]
fn answer_rows<A: KernelArray>(
    alloc: Global,
    comparison: ComparisonKind,
    left: &A,
    right: &A,
) -> Result<String, LineError>
    ensures { Tells string_bytes
        (comparison_answer comparison Rows (rows_under (A.mask left.now) (A.slots left.now))
        (rows_under (A.mask right.now) (A.slots right.now))) result }
{
    if left.count() != right.count() {
        return Err(LineError::Length);
    }
    write_made(alloc, compare_rows(alloc, comparison, left, right))
}

// Compares each row of a list with a scalar, and returns the results as text. The scalar is the
// only row of the list `scalars`. Fails with `Length` if `scalars` does not have one row, with
// `Range` if this row is null, and with `Memory` if an allocation fails.
#[tactic(auto, using(crate::proofs::Answered::answered))]
fn answer_scalar<A: KernelArray>(
    alloc: Global,
    comparison: ComparisonKind,
    rows: &A,
    scalars: &A,
) -> Result<String, LineError>
    ensures { Tells string_bytes
        (comparison_answer comparison Scalar (rows_under (A.mask rows.now) (A.slots rows.now))
        (rows_under (A.mask scalars.now) (A.slots scalars.now))) result }
{
    if scalars.count() != 1 {
        return Err(LineError::Length);
    }
    let Some(scalar) = scalars.value(0) else {
        return Err(LineError::Range);
    };
    write_made(alloc, compare_scalar(alloc, comparison, rows, &scalar))
}

// Compares the first of two lists with the second one, and returns the results as text. `operand`
// says whether the second list has a row for each row or one scalar. Fails with `Length` if there
// are not two lists. Other errors are those of `answer_rows` and `answer_scalar`.
fn answer_comparison<A: KernelArray>(
    alloc: Global,
    comparison: ComparisonKind,
    operand: Operand,
    lists: &[A],
) -> Result<String, LineError>
    ensures { Tells string_bytes
        (general_answer (Compare comparison operand) A.kind
        (map (λ a. rows_under (A.mask a) (A.slots a)) lists.now)) result }
{
    let [left, right] = lists else {
        return Err(LineError::Length);
    };
    match operand {
        Operand::Rows => answer_rows(alloc, comparison, left, right),
        Operand::Scalar => answer_scalar(alloc, comparison, left, right),
    }
}

// Counts in each row of a single list the bits of the group `count`, and returns the counts as
// text. Fails with `Length` if there is not exactly one list, and with `Memory` if an allocation
// fails.
#[tactic(auto, using(crate::proofs::Answered::answered))]
fn answer_count<A: KernelArray>(
    alloc: Global,
    count: BitCount,
    lists: &[A],
) -> Result<String, LineError>
    ensures { Tells string_bytes
        (general_answer (CountBits count) A.kind
        (map (λ a. rows_under (A.mask a) (A.slots a)) lists.now)) result }
{
    let [list] = lists else {
        return Err(LineError::Length);
    };
    write_made(alloc, count_bits(alloc, count, list))
}

// Formats a value as text, or `None` as `none`. The only error is a failed allocation.
fn write_value<A: KernelArray>(alloc: Global, found: Option<A::Value>) -> Result<String, AllocError>
    ensures { IfOk result (λ text. string_bytes text ≡ row_or_none (option_map A.value_row found)) }
{
    match found {
        Some(value) => value.to_string(alloc),
        None => "none".to_string(alloc),
    }
}

// Reduces the present rows of a single list to one row, and returns it as text. Without a present
// row the result is `none`. Fails with `Length` if there is not exactly one list, and with `Memory`
// if an allocation fails.
fn answer_reduction<A: KernelArray>(
    alloc: Global,
    reduction: Reduction,
    lists: &[A],
) -> Result<String, LineError>
    ensures { Tells string_bytes
        (general_answer (Reduce reduction) A.kind
        (map (λ a. rows_under (A.mask a) (A.slots a)) lists.now)) result }
{
    let [list] = lists else {
        return Err(LineError::Length);
    };
    Ok(write_value::<A>(alloc, reduce(reduction, list))?)
}

// Formats two values as text, separated by a space, or `None` as `none`. The only error is a failed
// allocation.
fn write_pair<A: KernelArray>(
    alloc: Global,
    found: Option<(A::Value, A::Value)>,
) -> Result<String, AllocError>
    ensures { IfOk result
        (λ text. string_bytes text
        ≡ rows_or_none (option_map (λ pair. A.value_row pair.0) found)
        (option_map (λ pair. A.value_row pair.1) found)) }
{
    match found {
        Some((least, greatest)) => format!(in alloc; "{least} {greatest}"),
        None => "none".to_string(alloc),
    }
}

// Returns the least and the greatest row of a single list as text. Without a present row the result
// is `none`. Fails with `Length` if there is not exactly one list, and with `Memory` if an
// allocation fails.
fn answer_extremes<A: KernelArray>(alloc: Global, lists: &[A]) -> Result<String, LineError>
    ensures { Tells string_bytes
        (general_answer Extremes A.kind (map (λ a. rows_under (A.mask a) (A.slots a)) lists.now))
        result }
{
    let [list] = lists else {
        return Err(LineError::Length);
    };
    Ok(write_pair::<A>(alloc, find_extremes(list))?)
}

/// Runs an operation on rows of any type, and returns its result as text. Fails with `Length` if
/// the number of lists or their lengths don't fit the operation, with `Range` if a scalar is null,
/// and with `Memory` if an allocation fails.
pub fn answer_general<A: KernelArray>(
    alloc: Global,
    operation: GeneralOperation,
    lists: &[A],
) -> Result<String, LineError>
    ensures { Tells string_bytes
        (general_answer operation A.kind (map (λ a. rows_under (A.mask a) (A.slots a)) lists.now))
        result }
{
    match operation {
        GeneralOperation::Compare(comparison, operand) => {
            answer_comparison(alloc, comparison, operand, lists)
        }
        GeneralOperation::CountBits(count) => answer_count(alloc, count, lists),
        GeneralOperation::Reduce(reduction) => answer_reduction(alloc, reduction, lists),
        GeneralOperation::Extremes => answer_extremes(alloc, lists),
    }
}
