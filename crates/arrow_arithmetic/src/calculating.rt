//! Arithmetic on columns, row by row.

ghost use Rattle.std.specs.Prelude.{◌≡◌, Some, length, IfOk, MatchResult, OnErr};
ghost use Rattle.num_traits.specs.Laws.{bit_len};
ghost use Rattle.arrow_arithmetic.specs.Answers.{beside_of, lefts_of, rights_of};
ghost use Rattle.arrow_arithmetic.specs.Arithmetic.{arithmetic_number, function_of, operation_of};
ghost use Rattle.arrow_arithmetic.specs.Arithmetic.{placed};
ghost use Rattle.arrow_arithmetic.specs.Arithmetic.{side_number, sign_number};
ghost use Rattle.polars_arrays_bits.specs.Errors.{IsMemory};
ghost use Rattle.polars_arrays_flat.specs.ArrayRows.{number_rows};
ghost use Rattle.polars_arrays_flat.specs.StoredRows.{number_slots, rows_under};
ghost use Rattle.polars_compute_arithmetic.specs.Operations.{answer_rows, result_rows};

use crate::present::{Answered, present_pairs, present_rows};
use crate::values::{write_beside, write_pairs, write_signs};
use arrow_columns::column::Column;
use polars_arrays_bits::bitmap::Bitmap;
use polars_arrays_bits::error::ComputeError;
use polars_compute_arithmetic::arithmetic::pl_num::PlNumArithmetic;
use std::alloc::Global;

/// An operation on two numbers of a type. A result is wrapped to the type. If a number is divided
/// by 0, there is no result, and the row is null.
#[derive(Clone, Copy, PartialEq, Eq, Debug)]
pub enum Arithmetic {
    Add,
    Subtract,
    Multiply,
    /// Division, with the quotient rounded down.
    FloorDivide,
    /// Division, with the quotient rounded toward 0.
    TruncatingDivide,
    /// The remainder of the division whose quotient is rounded down.
    Modulo,
}

/// The side of an operation on which its constant operand is.
#[derive(Clone, Copy, PartialEq, Eq, Debug)]
pub enum Side {
    Left,
    Right,
}

/// A function of one number. A result is wrapped to the type.
#[derive(Clone, Copy, PartialEq, Eq, Debug)]
pub enum Sign {
    Negate,
    Absolute,
}

impl Arithmetic {
    /// Returns the operation whose code in `dunkelva.h` is `number` (`DUNKELVA_ADD` is 0), or
    /// `None` if the code is unknown.
    pub fn of(number: u32) -> Option<Arithmetic>
        ensures { result ≡ arithmetic_number number }
    {
        match number {
            0 => Some(Arithmetic::Add),
            1 => Some(Arithmetic::Subtract),
            2 => Some(Arithmetic::Multiply),
            3 => Some(Arithmetic::FloorDivide),
            4 => Some(Arithmetic::TruncatingDivide),
            5 => Some(Arithmetic::Modulo),
            _ => None,
        }
    }
}

impl Side {
    /// Returns the side whose code in `dunkelva.h` is `number` (`DUNKELVA_LEFT` is 0), or `None` if
    /// the code is unknown.
    pub fn of(number: u32) -> Option<Side>
        ensures { result ≡ side_number number }
    {
        match number {
            0 => Some(Side::Left),
            1 => Some(Side::Right),
            _ => None,
        }
    }
}

impl Sign {
    /// Returns the function whose code in `dunkelva.h` is `number` (`DUNKELVA_NEGATE` is 0), or
    /// `None` if the code is unknown.
    pub fn of(number: u32) -> Option<Sign>
        ensures { result ≡ sign_number number }
    {
        match number {
            0 => Some(Sign::Negate),
            1 => Some(Sign::Absolute),
            _ => None,
        }
    }
}

// Returns the right operands for which an operation has a result. A division has none for 0.
fn answered_rights(arithmetic: Arithmetic) -> Answered
    ensures { result ≡ rights_of arithmetic }
{
    match arithmetic {
        Arithmetic::FloorDivide => Answered::Nonzero,
        Arithmetic::TruncatingDivide => Answered::Nonzero,
        Arithmetic::Modulo => Answered::Nonzero,
        Arithmetic::Add => Answered::Each,
        Arithmetic::Subtract => Answered::Each,
        Arithmetic::Multiply => Answered::Each,
    }
}

// Returns the left operands for which an operation has a result if its right operand is a constant.
// `zero` says whether the constant is 0. Divisions by 0 have no result.
fn answered_lefts(arithmetic: Arithmetic, zero: bool) -> Answered
    ensures { result ≡ lefts_of zero arithmetic }
{
    if !zero {
        return Answered::Each;
    }
    match arithmetic {
        Arithmetic::FloorDivide => Answered::Nothing,
        Arithmetic::TruncatingDivide => Answered::Nothing,
        Arithmetic::Modulo => Answered::Nothing,
        Arithmetic::Add => Answered::Each,
        Arithmetic::Subtract => Answered::Each,
        Arithmetic::Multiply => Answered::Each,
    }
}

// Returns the numbers of a column for which an operation with a constant has a result. The constant
// is the operand on side `side`, and `zero` says whether it is 0.
fn answered_beside(arithmetic: Arithmetic, side: Side, zero: bool) -> Answered
    ensures { result ≡ beside_of side zero arithmetic }
{
    match side {
        Side::Left => answered_rights(arithmetic),
        Side::Right => answered_lefts(arithmetic, zero),
    }
}

/// Applies the operation `arithmetic` to each pair of rows of two columns, and writes the results
/// into `out`. The columns and `out` have the same length. Returns a bit for each row, 1 if the
/// result is present. A result is null if one of the two rows is null, or if a number is divided by
/// 0; an arbitrary number is then written. The only error is `Memory`, and `out` is then unchanged.
pub fn calculate<T: PlNumArithmetic>(
    alloc: Global,
    arithmetic: Arithmetic,
    left: &Column<'_, T>,
    right: &Column<'_, T>,
    out: &mut [T],
) -> Result<Bitmap, ComputeError>
    requires same_length { length right.now.values ≡ length left.now.values }
    requires room { length out.old ≡ length left.now.values }
    ensures rows { MatchResult result (λ present.
        rows_under (Some present) (number_slots T.value out.new)
        ≡ result_rows T.low (bit_len T.width) (operation_of arithmetic)
        (number_rows T.value left.now) (number_rows T.value right.now)) IsMemory }
    ensures count { IfOk result (λ present. length present ≡ length left.now.values) }
    ensures kept { OnErr result (out.new ≡ out.old) }
{
    let present = present_pairs(alloc, answered_rights(arithmetic), left, right)?;
    write_pairs(arithmetic, left.values(), right.values(), out);
    Ok(present)
}

/// Applies the operation `arithmetic` to each row of a column and the constant `number`, which is
/// the operand on side `side`. Writes the results into `out`, which has the length of the column.
/// Returns a bit for each row, 1 if the result is present. A result is null if the row is null, or
/// if a number is divided by 0; an arbitrary number is then written. The only error is `Memory`,
/// and `out` is then unchanged.
pub fn calculate_number<T: PlNumArithmetic>(
    alloc: Global,
    arithmetic: Arithmetic,
    side: Side,
    number: T,
    column: &Column<'_, T>,
    out: &mut [T],
) -> Result<Bitmap, ComputeError>
    requires { length out.old ≡ length column.now.values }
    ensures rows { MatchResult result (λ present.
        rows_under (Some present) (number_slots T.value out.new)
        ≡ answer_rows T.low (bit_len T.width)
        (placed side (operation_of arithmetic) (T.value number))
        (number_rows T.value column.now)) IsMemory }
    ensures count { IfOk result (λ present. length present ≡ length column.now.values) }
    ensures kept { OnErr result (out.new ≡ out.old) }
{
    let answered = answered_beside(arithmetic, side, number.is_zero());
    let present = present_rows(alloc, answered, column)?;
    write_beside(arithmetic, side, number, column.values(), out);
    Ok(present)
}

/// Calculates the function `sign` (negation or absolute value) of each row of a column, and writes
/// the results, wrapped to the type, into `out`, which has the length of the column. Returns a bit
/// for each row, 1 if the row is present. An arbitrary number is written for a null row. The only
/// error is `Memory`, and `out` is then unchanged.
pub fn change_sign<T: PlNumArithmetic>(
    alloc: Global,
    sign: Sign,
    column: &Column<'_, T>,
    out: &mut [T],
) -> Result<Bitmap, ComputeError>
    requires { length out.old ≡ length column.now.values }
    ensures rows { MatchResult result (λ present.
        rows_under (Some present) (number_slots T.value out.new)
        ≡ answer_rows T.low (bit_len T.width) (function_of sign)
        (number_rows T.value column.now)) IsMemory }
    ensures count { IfOk result (λ present. length present ≡ length column.now.values) }
    ensures kept { OnErr result (out.new ≡ out.old) }
{
    let present = present_rows(alloc, Answered::Each, column)?;
    write_signs(sign, column.values(), out);
    Ok(present)
}
