//! The trait `Operator`: operators on two numbers that fold lists of numbers.

ghost use Rattle.std.specs.Prelude.{◌≡◌, ℤ};
ghost use Rattle.polars_compute_reductions.specs.Folds.{Folds};

use polars_arrays_numbers::native_type::NativeType;

/// An associative and commutative operator on two numbers of one type, such as addition. A fold
/// joins the numbers of a list to one number.
pub trait Operator<T: NativeType> {
    // The operator on whole numbers.
    ghost joined: { ℤ → ℤ → ℤ };

    // The number that a fold starts with.
    ghost neutral: { Self → ℤ };

    // The operator is associative and commutative, and the start joined with itself is the start.
    ghost folds_law: { (operator : Self) → Folds joined (neutral operator) };

    /// Returns the number that a fold starts with, such as 0 for a sum. A fold may join this number
    /// several times, with the same result.
    fn start(&self) -> T
        ensures { T.value result ≡ neutral self.now };

    /// Returns the result of the operator for two numbers.
    fn join(&self, left: T, right: T) -> T
        ensures { T.value result ≡ joined (T.value left) (T.value right) };
}
