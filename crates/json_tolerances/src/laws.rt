//! Laws of closeness and of order. The functions do nothing at run time; their contracts state the
//! laws.

ghost use Rattle.json_tolerances.specs.Laws.{EqualAreClose, IsSymmetric, OnlyEqualWithinZero};
ghost use Rattle.json_tolerances.specs.OrderLaws.{EqualAreNotLess, LessIsOneWay, LessPassesOn};

/// States that closeness is symmetric, that equal numbers are close within any margin, and that
/// only equal numbers are close within an absolute margin of 0.
pub fn closeness_laws()
    ensures symmetric { IsSymmetric }
    ensures equal_are_close { EqualAreClose }
    ensures only_equal_within_zero { OnlyEqualWithinZero }
{}

/// States that of two numbers at most one is less than the other. They are equal if and only if
/// neither is less. If `a` is less than `c`, and `b` is not less than `c`, then `a` is less than
/// `b`.
pub fn order_laws()
    ensures passes_on { LessPassesOn }
    ensures one_way { LessIsOneWay }
    ensures equal { EqualAreNotLess }
{}
