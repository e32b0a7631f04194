//! Runs the command in a line, and returns its result as text.

ghost use Rattle.std.specs.String.{string_bytes};
ghost use Rattle.polars_tables_lines.specs.Line.{line_meaning, rows_meaning, typed_meaning};
ghost use Rattle.polars_tables_operations.specs.declared.operation.Operation.TheVariants.{
  DistinctTruths,
};
ghost use Rattle.polars_tables_operations.specs.declared.operation.Operation.TheVariants.{General};
ghost use Rattle.polars_tables_operations.specs.declared.operation.Operation.TheVariants.{Numeric};
ghost use Rattle.polars_tables_rows.specs.declared.row_type.RowType.TheVariants.{Boolean};
ghost use Rattle.polars_tables_rows.specs.Faults.{Tells};
ghost use Rattle.polars_tables_rows.specs.Word.{words_of};

use polars_arrays_flat::boolean::BooleanArray;
use polars_arrays_flat::primitive::PrimitiveArray;
use polars_tables_operations::general::answer_general;
use polars_tables_operations::line_number::LineNumber;
use polars_tables_operations::numeric::answer_numeric;
use polars_tables_operations::operation::Operation;
use polars_tables_operations::truths::answer_truths;
pub use polars_tables_rows::fault::LineError;
use polars_tables_rows::row_type::RowType;
use polars_tables_rows::words::{next_word, parse_lists};
use std::alloc::Global;

// Runs an operation on the lists of numbers of type `T` in `text`, and returns its result as text.
// The error is `TypeName` if the operation does not accept numbers, or an error of parsing the
// lists or of running the operation.
fn answer_numbers<T: LineNumber>(
    alloc: Global,
    operation: Operation,
    text: &str,
) -> Result<String, LineError>
    ensures { Tells string_bytes (rows_meaning operation T.kind (words_of text.now)) result }
{
    let most = operation.lists_taken();
    match operation {
        Operation::General(operation) => {
            let lists = parse_lists::<PrimitiveArray<T>>(alloc, most, text)?;
            answer_general(alloc, operation, &lists)
        }
        Operation::Numeric(operation) => {
            let lists = parse_lists::<PrimitiveArray<T>>(alloc, most, text)?;
            answer_numeric(alloc, operation, lists)
        }
        Operation::DistinctTruths(_) => Err(LineError::TypeName),
    }
}

// Runs an operation on the lists of truth values in `text`, and returns its result as text. The
// error is `TypeName` if the operation does not accept truth values, or an error of parsing the
// lists or of running the operation.
fn answer_booleans(alloc: Global, operation: Operation, text: &str) -> Result<String, LineError>
    ensures { Tells string_bytes (rows_meaning operation Boolean (words_of text.now)) result }
{
    let most = operation.lists_taken();
    match operation {
        Operation::General(operation) => {
            let lists = parse_lists::<BooleanArray>(alloc, most, text)?;
            answer_general(alloc, operation, &lists)
        }
        Operation::DistinctTruths(asked) => {
            let lists = parse_lists::<BooleanArray>(alloc, most, text)?;
            answer_truths(alloc, asked, &lists)
        }
        Operation::Numeric(_) => Err(LineError::TypeName),
    }
}

// Runs an operation on the lists of rows in `text`, which have the type `row_type`, and returns its
// result as text. The error is `TypeName` if the operation does not accept the type, or an error of
// parsing the lists or of running the operation.
fn answer_rows(
    alloc: Global,
    operation: Operation,
    row_type: RowType,
    text: &str,
) -> Result<String, LineError>
    ensures { Tells string_bytes (rows_meaning operation row_type (words_of text.now)) result }
{
    match row_type {
        RowType::I8 => answer_numbers::<i8>(alloc, operation, text),
        RowType::I16 => answer_numbers::<i16>(alloc, operation, text),
        RowType::I32 => answer_numbers::<i32>(alloc, operation, text),
        RowType::I64 => answer_numbers::<i64>(alloc, operation, text),
        RowType::U8 => answer_numbers::<u8>(alloc, operation, text),
        RowType::U16 => answer_numbers::<u16>(alloc, operation, text),
        RowType::U32 => answer_numbers::<u32>(alloc, operation, text),
        RowType::U64 => answer_numbers::<u64>(alloc, operation, text),
        RowType::Boolean => answer_booleans(alloc, operation, text),
    }
}

// Runs an operation on `text`, the rest of a line after the name of the operation: the name of a
// type, and lists of rows. Returns the result as text. The error is `TypeName` if there is no such
// type or the operation does not accept it, or an error of `answer_rows`.
fn answer_typed(alloc: Global, operation: Operation, text: &str) -> Result<String, LineError>
    ensures { Tells string_bytes (typed_meaning operation (words_of text.now)) result }
{
    let Some((name, rest)) = next_word(text) else {
        return Err(LineError::TypeName);
    };
    match RowType::from_name(name) {
        Some(row_type) => answer_rows(alloc, operation, row_type, rest),
        None => Err(LineError::TypeName),
    }
}

/// Runs the command in a line, and returns its result as text, without a line feed. If the line has
/// a fault, the error is its first fault. The error is `Memory` only if an allocation failed.
///
/// For example, the line `add i8 127 null | 1 2` has the result `-128 null`.
pub fn answer_line(alloc: Global, line: &str) -> Result<String, LineError>
    ensures { Tells string_bytes (line_meaning line.now) result }
{
    let Some((name, rest)) = next_word(line) else {
        return Err(LineError::Op);
    };
    match Operation::from_name(name) {
        Some(operation) => answer_typed(alloc, operation, rest),
        None => Err(LineError::Op),
    }
}
