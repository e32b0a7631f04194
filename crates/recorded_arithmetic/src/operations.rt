//! The functions of one number, and the operations on two numbers.

/// A function of one number: its absolute value, or its negation.
#[derive(Clone, Copy)]
pub enum Function {
    Abs,
    Neg,
}

/// An operation on two numbers. `FloorDiv` and `LegacyDiv` round the quotient down, `TruncDiv`
/// rounds it towards zero, and `Mod` is the remainder of the division that rounds down.
#[derive(Clone, Copy)]
pub enum Operation {
    Add,
    Sub,
    Mul,
    FloorDiv,
    TruncDiv,
    Mod,
    LegacyDiv,
}
