//! The operations that a line can name, and their names.

ghost use Rattle.std.specs.Prelude.{◌≡◌};
ghost use Rattle.polars_tables_operations.specs.Operations.{lists_taken, operation_of};

use polars_tables_rows::tables::find;

/// A comparison of two rows. For the first six the result is null if either row is null. For the
/// last two the result is always a truth value: null is equal only to null.
#[derive(Clone, Copy, Debug, PartialEq, Eq)]
pub enum ComparisonKind {
    Equal,
    Unequal,
    Less,
    LessOrEqual,
    Greater,
    GreaterOrEqual,
    EqualMissing,
    UnequalMissing,
}

/// The right operand of a comparison or a calculation.
#[derive(Clone, Copy, Debug, PartialEq, Eq)]
pub enum Operand {
    /// A second list. Row `i` of the first list is combined with row `i` of the second.
    Rows,
    /// A single scalar. Each row of the first list is combined with the scalar.
    Scalar,
}

/// A group of bits in a row that can be counted.
#[derive(Clone, Copy, Debug, PartialEq, Eq)]
pub enum BitCount {
    /// The 1 bits.
    Ones,
    /// The 0 bits.
    Zeros,
    /// The 1 bits above the highest 0 bit.
    LeadingOnes,
    /// The 0 bits above the highest 1 bit.
    LeadingZeros,
    /// The 1 bits below the lowest 0 bit.
    TrailingOnes,
    /// The 0 bits below the lowest 1 bit.
    TrailingZeros,
}

/// A reduction of the present rows of a list to one row.
#[derive(Clone, Copy, Debug, PartialEq, Eq)]
pub enum Reduction {
    /// The bitwise AND of all rows.
    And,
    /// The bitwise OR of all rows.
    Or,
    /// The bitwise exclusive OR of all rows.
    Xor,
    /// The least row.
    Least,
    /// The greatest row.
    Greatest,
}

/// A function of one number. The result is wrapped to the type of the number.
#[derive(Clone, Copy, Debug, PartialEq, Eq)]
pub enum Change {
    /// The absolute value.
    Magnitude,
    /// The number with the opposite sign.
    Negation,
}

/// A calculation with two numbers that depends on their order. The result is wrapped to the type.
/// It is null if the divisor is 0.
#[derive(Clone, Copy, Debug, PartialEq, Eq)]
pub enum OrderedCalculation {
    /// The left number minus the right one.
    Subtract,
    /// The quotient, rounded down.
    FloorDivide,
    /// The quotient, rounded toward 0.
    TruncatedDivide,
    /// The remainder of the quotient that is rounded down.
    Modulo,
    /// The quotient, rounded down: another name of `FloorDivide`.
    LegacyDivide,
}

/// A calculation with two numbers of a type. The result is wrapped to the type.
#[derive(Clone, Copy, Debug, PartialEq, Eq)]
pub enum Calculation {
    /// The sum.
    Add,
    /// The product.
    Multiply,
    /// A calculation that depends on the order of the two numbers.
    Ordered(OrderedCalculation),
}

/// A question about the distinct rows of a list.
#[derive(Clone, Copy, Debug, PartialEq, Eq)]
pub enum Distinct {
    /// The distinct rows themselves: present rows in ascending order, and then null if the list has
    /// a null.
    Listed,
    /// The number of distinct rows. Null counts as one.
    Counted,
    /// The number of distinct present rows.
    PresentCounted,
}

/// An operation on rows of any type, numbers or truth values.
#[derive(Clone, Copy, Debug, PartialEq, Eq)]
pub enum GeneralOperation {
    /// Compares the rows of a list with a second list or with a scalar.
    Compare(ComparisonKind, Operand),
    /// Counts bits in each row of a list.
    CountBits(BitCount),
    /// Reduces the present rows of a list to one row. Without a present row the result is `none`.
    Reduce(Reduction),
    /// Returns the least and the greatest row of a list. Without a present row the result is
    /// `none`.
    Extremes,
}

/// An operation on numbers only.
#[derive(Clone, Copy, Debug, PartialEq, Eq)]
pub enum NumericOperation {
    /// Applies a function to each number of a list.
    Change(Change),
    /// Calculates with the numbers of a list as left operands, and a second list or a scalar on the
    /// right.
    Calculate(Calculation, Operand),
    /// Calculates with a scalar as the left operand, and each number of a list on the right.
    CalculateFromScalar(OrderedCalculation),
    /// Adds the present numbers of a list, and wraps the sum to the type.
    Sum,
    /// Answers a question about the distinct rows of the second of two lists. The first list has
    /// the first and the last number of a range, in which all numbers of the second must lie.
    DistinctInRange(Distinct),
    /// Returns whether the second of two lists has every number of a range, and a null. The first
    /// list has the first and the last number of the range, in which all numbers of the second must
    /// lie.
    HasAllOfRange,
}

/// An operation that a line can name.
#[derive(Clone, Copy, Debug, PartialEq, Eq)]
pub enum Operation {
    /// An operation on rows of any type.
    General(GeneralOperation),
    /// An operation on numbers only.
    Numeric(NumericOperation),
    /// A question about the distinct rows of a list of truth values.
    DistinctTruths(Distinct),
}

// Makes an entry of `OPERATIONS` for a comparison. `$operand` is the variant of `Operand` for its
// right operand.
macro_rules! compares {
    ($name:expr, $comparison:ident, $operand:ident) => {
        (
            $name,
            Operation::General(GeneralOperation::Compare(
                ComparisonKind::$comparison,
                Operand::$operand,
            )),
        )
    };
}

// Makes an entry of `OPERATIONS`: a count of bits.
macro_rules! counts {
    ($name:expr, $count:ident) => {
        (
            $name,
            Operation::General(GeneralOperation::CountBits(BitCount::$count)),
        )
    };
}

// Makes an entry of `OPERATIONS`: a reduction of rows.
macro_rules! reduces {
    ($name:expr, $reduction:ident) => {
        (
            $name,
            Operation::General(GeneralOperation::Reduce(Reduction::$reduction)),
        )
    };
}

// Makes an entry of `OPERATIONS`: an operation on numbers.
macro_rules! numeric {
    ($name:expr, $operation:expr) => {
        ($name, Operation::Numeric($operation))
    };
}

// Makes an entry of `OPERATIONS` for a calculation in which the order does not matter. `$operand`
// is the variant of `Operand` for its right operand.
macro_rules! calculates {
    ($name:expr, $calculation:ident, $operand:ident) => {
        numeric!(
            $name,
            NumericOperation::Calculate(Calculation::$calculation, Operand::$operand)
        )
    };
}

// Makes an entry of `OPERATIONS` for a calculation in which the order matters. `$operand` is the
// variant of `Operand` for its right operand.
macro_rules! calculates_in_order {
    ($name:expr, $calculation:ident, $operand:ident) => {
        numeric!(
            $name,
            NumericOperation::Calculate(
                Calculation::Ordered(OrderedCalculation::$calculation),
                Operand::$operand
            )
        )
    };
}

// Makes an entry of `OPERATIONS`: a calculation with a scalar as left operand.
macro_rules! calculates_from_scalar {
    ($name:expr, $calculation:ident) => {
        numeric!(
            $name,
            NumericOperation::CalculateFromScalar(OrderedCalculation::$calculation)
        )
    };
}

/// The operations with their names. A new operation needs an entry here and in
/// `specs/Operations.antt`.
const OPERATIONS: [(&str, Operation); 57] = [
    compares!("eq", Equal, Rows),
    compares!("ne", Unequal, Rows),
    compares!("lt", Less, Rows),
    compares!("le", LessOrEqual, Rows),
    compares!("gt", Greater, Rows),
    compares!("ge", GreaterOrEqual, Rows),
    compares!("eq_missing", EqualMissing, Rows),
    compares!("ne_missing", UnequalMissing, Rows),
    compares!("eq_broadcast", Equal, Scalar),
    compares!("ne_broadcast", Unequal, Scalar),
    compares!("lt_broadcast", Less, Scalar),
    compares!("le_broadcast", LessOrEqual, Scalar),
    compares!("gt_broadcast", Greater, Scalar),
    compares!("ge_broadcast", GreaterOrEqual, Scalar),
    compares!("eq_missing_broadcast", EqualMissing, Scalar),
    compares!("ne_missing_broadcast", UnequalMissing, Scalar),
    numeric!("abs", NumericOperation::Change(Change::Magnitude)),
    numeric!("neg", NumericOperation::Change(Change::Negation)),
    calculates!("add", Add, Rows),
    calculates_in_order!("sub", Subtract, Rows),
    calculates!("mul", Multiply, Rows),
    calculates_in_order!("floor_div", FloorDivide, Rows),
    calculates_in_order!("trunc_div", TruncatedDivide, Rows),
    calculates_in_order!("mod", Modulo, Rows),
    calculates_in_order!("legacy_div", LegacyDivide, Rows),
    calculates!("add_scalar", Add, Scalar),
    calculates_in_order!("sub_scalar", Subtract, Scalar),
    calculates!("mul_scalar", Multiply, Scalar),
    calculates_in_order!("floor_div_scalar", FloorDivide, Scalar),
    calculates_in_order!("trunc_div_scalar", TruncatedDivide, Scalar),
    calculates_in_order!("mod_scalar", Modulo, Scalar),
    calculates_in_order!("legacy_div_scalar", LegacyDivide, Scalar),
    calculates_from_scalar!("sub_scalar_lhs", Subtract),
    calculates_from_scalar!("floor_div_scalar_lhs", FloorDivide),
    calculates_from_scalar!("trunc_div_scalar_lhs", TruncatedDivide),
    calculates_from_scalar!("mod_scalar_lhs", Modulo),
    calculates_from_scalar!("legacy_div_scalar_lhs", LegacyDivide),
    counts!("count_ones", Ones),
    counts!("count_zeros", Zeros),
    counts!("leading_ones", LeadingOnes),
    counts!("leading_zeros", LeadingZeros),
    counts!("trailing_ones", TrailingOnes),
    counts!("trailing_zeros", TrailingZeros),
    reduces!("reduce_and", And),
    reduces!("reduce_or", Or),
    reduces!("reduce_xor", Xor),
    reduces!("min", Least),
    reduces!("max", Greatest),
    ("min_max", Operation::General(GeneralOperation::Extremes)),
    numeric!("sum", NumericOperation::Sum),
    ("unique", Operation::DistinctTruths(Distinct::Listed)),
    ("n_unique", Operation::DistinctTruths(Distinct::Counted)),
    (
        "n_unique_non_null",
        Operation::DistinctTruths(Distinct::PresentCounted),
    ),
    numeric!(
        "unique_range",
        NumericOperation::DistinctInRange(Distinct::Listed)
    ),
    numeric!(
        "n_unique_range",
        NumericOperation::DistinctInRange(Distinct::Counted)
    ),
    numeric!(
        "n_unique_non_null_range",
        NumericOperation::DistinctInRange(Distinct::PresentCounted)
    ),
    numeric!("seen_all_range", NumericOperation::HasAllOfRange),
];

impl Operation {
    /// Returns the operation that is called `name` in a line, or `None` if there is no such
    /// operation.
    pub fn from_name(name: &str) -> Option<Operation>
        ensures { result ≡ operation_of name.now }
    {
        find(&OPERATIONS, name)
    }

    /// Returns the number of lists of rows that the operation takes. A scalar counts as a list of
    /// one row.
    pub fn lists_taken(self) -> usize
        ensures { result ≡ lists_taken self }
    {
        match self {
            Operation::General(GeneralOperation::Compare(..)) => 2,
            Operation::General(_) => 1,
            Operation::Numeric(NumericOperation::Change(_) | NumericOperation::Sum) => 1,
            Operation::Numeric(_) => 2,
            Operation::DistinctTruths(_) => 1,
        }
    }
}
