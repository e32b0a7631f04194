//! Lookup of operations by their codes in C.

ghost use Rattle.std.specs.Prelude.{◌≡◌};
ghost use Rattle.arrow_calls.specs.Operations.{counting_number, operator_number, test_number};

use arrow_columns::comparing::Test;
use arrow_columns::counting::Counting;
use arrow_columns::reducing::BitOperator;

/// Returns the comparison whose code in `dunkelva.h` is `number` (`DUNKELVA_EQUAL` is 0), or `None`
/// if the code is unknown.
pub fn comparison_of_code(number: u32) -> Option<Test>
    ensures { result ≡ test_number number }
{
    match number {
        0 => Some(Test::Equal),
        1 => Some(Test::Unequal),
        2 => Some(Test::Less),
        3 => Some(Test::LessOrEqual),
        4 => Some(Test::Greater),
        5 => Some(Test::GreaterOrEqual),
        _ => None,
    }
}

/// Returns the way to count bits that has the code `number` in `dunkelva.h` (`DUNKELVA_ONES` is 0),
/// or `None` if the code is unknown.
pub fn counting_of(number: u32) -> Option<Counting>
    ensures { result ≡ counting_number number }
{
    match number {
        0 => Some(Counting::Ones),
        1 => Some(Counting::Zeros),
        2 => Some(Counting::LeadingOnes),
        3 => Some(Counting::LeadingZeros),
        4 => Some(Counting::TrailingOnes),
        5 => Some(Counting::TrailingZeros),
        _ => None,
    }
}

/// Returns the bitwise operator that has the code `number` in `dunkelva.h` (`DUNKELVA_AND` is 0),
/// or `None` if the code is unknown.
pub fn operator_of(number: u32) -> Option<BitOperator>
    ensures { result ≡ operator_number number }
{
    match number {
        0 => Some(BitOperator::And),
        1 => Some(BitOperator::Or),
        2 => Some(BitOperator::Xor),
        _ => None,
    }
}
