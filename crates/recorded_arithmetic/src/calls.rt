//! The calls of arithmetic, and their names.

use crate::operations::{Function, Operation};
use recorded_text::names::find;

/// A call of arithmetic. The comments say what the call computes.
#[derive(Clone, Copy)]
pub enum Call {
    /// A function of each number of an array.
    Apply(Function),
    /// An operation on the numbers at each index of two arrays.
    Operate(Operation),
    /// An operation on each number of an array and a number.
    OperateBy(Operation),
    /// An operation on a number and each number of an array.
    OperateFrom(Operation),
    /// A function of the stored values of an array.
    UnaryValues,
    /// A function of the stored values of an array, in place.
    UnaryInPlace,
    /// A function of the pairs of stored values of two arrays.
    BinaryValues,
    /// A function of the pairs of stored values of two arrays, in place.
    BinaryInPlace,
    /// The sum of the present rows of an array.
    SumRows,
    /// The sum of the stored values of an array.
    SumValues,
    /// The sum of the stored values of an array, except those whose bit in a given bitmap is 0.
    SumMasked,
    /// A function of one number, or an operation on two numbers.
    Calculate,
    /// The sum of two numbers.
    AddNumbers,
}

impl Call {
    /// Returns the call with this name, or `None` if no call of arithmetic has it.
    pub fn named(name: &str) -> Option<Call> {
        find(&CALLS, name)
    }
}

// The calls and their names.
const CALLS: [(&str, Call); 32] = [
    ("wrapping_abs", Call::Apply(Function::Abs)),
    ("wrapping_neg", Call::Apply(Function::Neg)),
    ("wrapping_add", Call::Operate(Operation::Add)),
    ("wrapping_sub", Call::Operate(Operation::Sub)),
    ("wrapping_mul", Call::Operate(Operation::Mul)),
    ("wrapping_floor_div", Call::Operate(Operation::FloorDiv)),
    ("wrapping_trunc_div", Call::Operate(Operation::TruncDiv)),
    ("wrapping_mod", Call::Operate(Operation::Mod)),
    ("legacy_div", Call::Operate(Operation::LegacyDiv)),
    ("wrapping_add_scalar", Call::OperateBy(Operation::Add)),
    ("wrapping_sub_scalar", Call::OperateBy(Operation::Sub)),
    ("wrapping_mul_scalar", Call::OperateBy(Operation::Mul)),
    (
        "wrapping_floor_div_scalar",
        Call::OperateBy(Operation::FloorDiv),
    ),
    (
        "wrapping_trunc_div_scalar",
        Call::OperateBy(Operation::TruncDiv),
    ),
    ("wrapping_mod_scalar", Call::OperateBy(Operation::Mod)),
    ("legacy_div_scalar", Call::OperateBy(Operation::LegacyDiv)),
    ("wrapping_add_scalar_lhs", Call::OperateFrom(Operation::Add)),
    ("wrapping_sub_scalar_lhs", Call::OperateFrom(Operation::Sub)),
    ("wrapping_mul_scalar_lhs", Call::OperateFrom(Operation::Mul)),
    (
        "wrapping_floor_div_scalar_lhs",
        Call::OperateFrom(Operation::FloorDiv),
    ),
    (
        "wrapping_trunc_div_scalar_lhs",
        Call::OperateFrom(Operation::TruncDiv),
    ),
    ("wrapping_mod_scalar_lhs", Call::OperateFrom(Operation::Mod)),
    (
        "legacy_div_scalar_lhs",
        Call::OperateFrom(Operation::LegacyDiv),
    ),
    ("prim_unary_values", Call::UnaryValues),
    ("prim_unary_in_place", Call::UnaryInPlace),
    ("prim_binary_values", Call::BinaryValues),
    ("prim_binary_in_place", Call::BinaryInPlace),
    ("wrapping_sum_arr", Call::SumRows),
    ("wrapping_sum", Call::SumValues),
    ("wrapping_sum_with_validity", Call::SumMasked),
    ("pl_num", Call::Calculate),
    ("wrapping_add_number", Call::AddNumbers),
];
