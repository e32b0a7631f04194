//! The least and the greatest number of a column.

ghost use Rattle.std.specs.Option.{option_copied};
ghost use Rattle.std.specs.Prelude.{◌≡◌, ◌<◌, ℕ, ℤ, Bool, false, length, MatchOption};
ghost use Rattle.polars_arrays_flat.specs.ArrayRows.{number_rows};
ghost use Rattle.polars_arrays_flat.specs.Row.{Row, Int};
ghost use Rattle.polars_arrays_flat.specs.Validity.{HasBits, is_present};
ghost use Rattle.polars_compare_extremes.specs.BestNumber.{best_of};
ghost use Rattle.polars_compare_extremes.specs.Extremes.{FindsBest, IsGreatest, IsLeast};
ghost use Rattle.polars_compare_extremes.specs.Extremes.{NonePresent};
ghost use Rattle.polars_compare_extremes.specs.Places.{IsFirstPresent};
ghost use Rattle.polars_compare_extremes.specs.Preference.{Prefers};

use arrow_columns::column::Column;
use polars_arrays_bits::bitmap::Bitmap;
use polars_arrays_flat::validity::is_present;
use polars_arrays_numbers::comparison::{Comparison, Less};
use polars_arrays_numbers::native_type::NativeType;
use polars_compute_reductions::fold::fold_under;
use polars_compute_reductions::operator::Operator;

// An operator that returns the better of two numbers, the lesser or the greater one. Its folds
// start with a given number.
trait BestFrom<T: NativeType>: Operator<T> + Drop {
    // The relation "the first row is better than the second".
    ghost better: { Row → Row → Bool };

    // States that at most one of two rows is better than the other. Moreover, if `y` is better than
    // `x`, and `z` is not better than `x`, then `y` is better than `z`.
    ghost preference_law: { Prefers Int better };

    /// Creates the operator. Its folds start with `first`.
    fn from(first: T) -> Self
        ensures { Self.neutral result ≡ T.value first };

    // States that the operator returns the better of two numbers.
    ghost best_law: { (m n : ℤ) → Self.Operator.joined m n ≡ best_of better m n };
}

// The operator that returns the lesser of two numbers. Its folds start with `first`.
#[derive(Drop)]
struct LeastFrom<T: NativeType> {
    first: T,
}

// The operator that returns the greater of two numbers. Its folds start with `first`.
#[derive(Drop)]
struct GreatestFrom<T: NativeType> {
    first: T,
}

impl<T: NativeType> Operator<T> for LeastFrom<T> {
    ghost use Rattle.polars_compare_leaves.specs.Order.{row_less};
    ghost use Rattle.polars_compare_extremes.specs.BestNumber.{best_of};
    ghost use Rattle.polars_compare_extremes.specs.BestNumberLaws.{least_folds};

    ghost joined = { best_of row_less };

    ghost neutral = { λ operator. T.value operator.first };

    ghost folds_law = { λ operator. least_folds (T.value operator.first) };

    #[inline(always)]
    fn start(&self) -> T {
        self.first
    }

    #[inline(always)]
    fn join(&self, left: T, right: T) -> T {
        if Less.compare(right, left) {
            right
        } else {
            left
        }
    }
}

impl<T: NativeType> Operator<T> for GreatestFrom<T> {
    ghost use Rattle.polars_compare_leaves.specs.Order.{row_greater};
    ghost use Rattle.polars_compare_extremes.specs.BestNumber.{best_of};
    ghost use Rattle.polars_compare_extremes.specs.BestNumberLaws.{greatest_folds};

    ghost joined = { best_of row_greater };

    ghost neutral = { λ operator. T.value operator.first };

    ghost folds_law = { λ operator. greatest_folds (T.value operator.first) };

    #[inline(always)]
    fn start(&self) -> T {
        self.first
    }

    #[inline(always)]
    fn join(&self, left: T, right: T) -> T {
        if Less.compare(left, right) {
            right
        } else {
            left
        }
    }
}

impl<T: NativeType> BestFrom<T> for LeastFrom<T> {
    ghost use Rattle.std.specs.Prelude.{refl};
    ghost use Rattle.polars_compare_leaves.specs.Order.{row_less};
    ghost use Rattle.polars_compare_extremes.specs.PreferenceLaws.{less_prefers-numbers};

    ghost better = { row_less };

    ghost preference_law = { less_prefers-numbers };

    ghost best_law = { λ m n. refl };

    #[inline(always)]
    fn from(first: T) -> LeastFrom<T> {
        LeastFrom { first }
    }
}

impl<T: NativeType> BestFrom<T> for GreatestFrom<T> {
    ghost use Rattle.std.specs.Prelude.{refl};
    ghost use Rattle.polars_compare_leaves.specs.Order.{row_greater};
    ghost use Rattle.polars_compare_extremes.specs.PreferenceLaws.{greater_prefers-numbers};

    ghost better = { row_greater };

    ghost preference_law = { greater_prefers-numbers };

    ghost best_law = { λ m n. refl };

    #[inline(always)]
    fn from(first: T) -> GreatestFrom<T> {
        GreatestFrom { first }
    }
}

// Returns the index of the first present row of `n` rows, or `None` if no row is present. `present`
// is the validity of the rows.
fn first_present(present: Option<&Bitmap>, n: usize) -> Option<usize>
    requires { HasBits n (option_copied present) }
    ensures { MatchOption result
        ((k : ℕ) → k < n → is_present (option_copied present.entry) k ≡ false)
        (IsFirstPresent n (option_copied present.entry)) }
{
    for i in 0..n {
        if is_present(present, i) {
            return Some(i);
        }
    }
    None
}

// Returns the best of the present numbers by operator `B`, or `None` if no row is present.
fn best<T: NativeType, B: BestFrom<T>>(column: &Column<'_, T>) -> Option<T>
    ensures { MatchOption result
        (NonePresent (number_rows T.value column.now))
        (λ found. FindsBest B.better (number_rows T.value column.now) (Int (T.value found))) }
{
    let values = column.values();
    let validity = column.validity();
    match first_present(validity, values.len()) {
        Some(place) => {
            let operator = B::from(values[place]);
            let found = fold_under(&operator, values, validity);
            Some(found)
        }
        None => None,
    }
}

/// Returns the least and the greatest number of the present rows, or `None` if no row is present.
pub fn min_max<T: NativeType>(column: &Column<'_, T>) -> Option<(T, T)>
    ensures { MatchOption result
        (NonePresent (number_rows T.value column.now))
        (λ pair. IsLeast (number_rows T.value column.now) (Int (T.value pair.0))
        × IsGreatest (number_rows T.value column.now) (Int (T.value pair.1))) }
{
    let least = best::<T, LeastFrom<T>>(column)?;
    let greatest = best::<T, GreatestFrom<T>>(column)?;
    Some((least, greatest))
}
