//! The least and the greatest number of an array or a slice. The present numbers are folded by the
//! operator "the lesser of two" or "the greater of two", starting with the first present number.

ghost use Rattle.std.specs.Option.{option_copied};
ghost use Rattle.std.specs.Prelude.{◌≡◌, ℤ, Bool, length, MatchOption};
ghost use Rattle.polars_arrays_flat.specs.ArrayRows.{number_rows};
ghost use Rattle.polars_arrays_flat.specs.Row.{Row, Int};
ghost use Rattle.polars_arrays_flat.specs.StoredRows.{number_slots, rows_under};
ghost use Rattle.polars_arrays_flat.specs.Validity.{HasBits};
ghost use Rattle.polars_compare_extremes.specs.BestNumber.{best_of};
ghost use Rattle.polars_compare_extremes.specs.Extremes.{FindsBest, IsGreatest, IsLeast};
ghost use Rattle.polars_compare_extremes.specs.Extremes.{NonePresent};
ghost use Rattle.polars_compare_extremes.specs.Preference.{Prefers};

use crate::kernel::MinMaxKernel;
use crate::places::first_present;
use polars_arrays_bits::bitmap::Bitmap;
use polars_arrays_flat::array::Array;
use polars_arrays_flat::primitive::PrimitiveArray;
use polars_arrays_numbers::comparison::{Comparison, Less};
use polars_arrays_numbers::native_type::NativeType;
use polars_compute_reductions::fold::{fold_all_both, fold_under};
use polars_compute_reductions::operator::Operator;

/// An operator that returns the better of two numbers: the lesser or the greater one. Its folds
/// start with a given number, and return the best of that number and the numbers folded.
trait BestFrom<T: NativeType>: Operator<T> + Drop {
    // Relation of two rows: the first is better than the second.
    ghost better: { Row → Row → Bool };

    // Laws of the relation. Of two numbers, at most one is better than the other. For all x, y and
    // z: if y is better than x, and z is not better than x, then y is better than z.
    ghost preference_law: { Prefers Int better };

    /// Creates the operator. Its folds start with `first`.
    fn from(first: T) -> Self
        ensures { Self.neutral result ≡ T.value first };

    // Joining two numbers gives the better one.
    ghost best_law: { (m n : ℤ) → Self.Operator.joined m n ≡ best_of better m n };
}

/// The operator "the lesser of two numbers", whose folds start with `first`.
#[derive(Drop)]
struct LeastFrom<T: NativeType> {
    first: T,
}

/// The operator "the greater of two numbers", whose folds start with `first`.
#[derive(Drop)]
struct GreatestFrom<T: NativeType> {
    first: T,
}

impl<T: NativeType> Operator<T> for LeastFrom<T> {
    ghost use Rattle.polars_compare_leaves.specs.Order.{row_less};
    ghost use Rattle.polars_compare_extremes.specs.BestNumber.{best_of};
    ghost use Rattle.polars_compare_extremes.specs.BestNumberLaws.{least_folds};

    ghost joined = { best_of row_less };

    ghost neutral = { λ operator. T.value operator.first };

    ghost folds_law = { λ operator. least_folds (T.value operator.first) };

    #[inline(always)]
    fn start(&self) -> T {
        self.first
    }

    #[inline(always)]
    fn join(&self, left: T, right: T) -> T {
        if Less.compare(right, left) {
            right
        } else {
            left
        }
    }
}

impl<T: NativeType> Operator<T> for GreatestFrom<T> {
    ghost use Rattle.polars_compare_leaves.specs.Order.{row_greater};
    ghost use Rattle.polars_compare_extremes.specs.BestNumber.{best_of};
    ghost use Rattle.polars_compare_extremes.specs.BestNumberLaws.{greatest_folds};

    ghost joined = { best_of row_greater };

    ghost neutral = { λ operator. T.value operator.first };

    ghost folds_law = { λ operator. greatest_folds (T.value operator.first) };

    #[inline(always)]
    fn start(&self) -> T {
        self.first
    }

    #[inline(always)]
    fn join(&self, left: T, right: T) -> T {
        if Less.compare(left, right) {
            right
        } else {
            left
        }
    }
}

impl<T: NativeType> BestFrom<T> for LeastFrom<T> {
    ghost use Rattle.std.specs.Prelude.{refl};
    ghost use Rattle.polars_compare_leaves.specs.Order.{row_less};
    ghost use Rattle.polars_compare_extremes.specs.PreferenceLaws.{less_prefers-numbers};

    ghost better = { row_less };

    ghost preference_law = { less_prefers-numbers };

    ghost best_law = { λ m n. refl };

    #[inline(always)]
    fn from(first: T) -> LeastFrom<T> {
        LeastFrom { first }
    }
}

impl<T: NativeType> BestFrom<T> for GreatestFrom<T> {
    ghost use Rattle.std.specs.Prelude.{refl};
    ghost use Rattle.polars_compare_leaves.specs.Order.{row_greater};
    ghost use Rattle.polars_compare_extremes.specs.PreferenceLaws.{greater_prefers-numbers};

    ghost better = { row_greater };

    ghost preference_law = { greater_prefers-numbers };

    ghost best_law = { λ m n. refl };

    #[inline(always)]
    fn from(first: T) -> GreatestFrom<T> {
        GreatestFrom { first }
    }
}

// Returns the best of the present numbers by the operator `B`, or `None` if no number is present.
// `present` has a bit for each number, or is `None` if all numbers are present.
fn best_number<T: NativeType, B: BestFrom<T>>(numbers: &[T], present: Option<&Bitmap>) -> Option<T>
    requires { HasBits (length numbers.now) (option_copied present) }
    ensures { MatchOption result
        (NonePresent (rows_under (option_copied present.entry) (number_slots T.value numbers.now)))
        (λ found. FindsBest B.better
        (rows_under (option_copied present.entry) (number_slots T.value numbers.now))
        (Int (T.value found))) }
{
    match first_present(present, numbers.len()) {
        Some(first) => {
            let operator = B::from(numbers[first]);
            let best = fold_under(&operator, numbers, present);
            Some(best)
        }
        None => None,
    }
}

// Returns the least and the greatest number, or `None` if there are no numbers.
fn ends_of_all<T: NativeType>(numbers: &[T]) -> Option<(T, T)>
    ensures { MatchOption result
        (NonePresent (number_slots T.value numbers.now))
        (λ pair. IsLeast (number_slots T.value numbers.now) (Int (T.value pair.0))
        × IsGreatest (number_slots T.value numbers.now) (Int (T.value pair.1))) }
{
    if numbers.is_empty() {
        return None;
    }
    let first = numbers[0];
    let ends = fold_all_both(&LeastFrom { first }, &GreatestFrom { first }, numbers);
    Some(ends)
}

// Returns the least and the greatest of the present numbers, or `None` if no number is present.
// `present` has a bit for each number, or is `None` if all numbers are present.
fn ends<T: NativeType>(numbers: &[T], present: Option<&Bitmap>) -> Option<(T, T)>
    requires { HasBits (length numbers.now) (option_copied present) }
    ensures { MatchOption result
        (NonePresent (rows_under (option_copied present.entry) (number_slots T.value numbers.now)))
        (λ pair. IsLeast
        (rows_under (option_copied present.entry) (number_slots T.value numbers.now))
        (Int (T.value pair.0))
        × IsGreatest
        (rows_under (option_copied present.entry) (number_slots T.value numbers.now))
        (Int (T.value pair.1))) }
{
    if present.is_none() {
        return ends_of_all(numbers);
    }
    let least = best_number::<T, LeastFrom<T>>(numbers, present)?;
    let greatest = best_number::<T, GreatestFrom<T>>(numbers, present)?;
    Some((least, greatest))
}

impl<T: NativeType + 'static> MinMaxKernel for PrimitiveArray<T> {
    type Scalar = T;

    ghost rows = { number_rows T.value };

    ghost scalar_row = { λ number. Int (T.value number) };

    fn min_ignore_nan_kernel(&self) -> Option<T> {
        best_number::<T, LeastFrom<T>>(self.values(), self.validity())
    }

    fn max_ignore_nan_kernel(&self) -> Option<T> {
        best_number::<T, GreatestFrom<T>>(self.values(), self.validity())
    }

    fn min_max_ignore_nan_kernel(&self) -> Option<(T, T)> {
        ends(self.values(), self.validity())
    }
}

impl<T: NativeType + 'static> MinMaxKernel for &[T] {
    type Scalar = T;

    ghost rows = { λ numbers. number_slots T.value numbers.now };

    ghost scalar_row = { λ number. Int (T.value number) };

    fn min_ignore_nan_kernel(&self) -> Option<T> {
        best_number::<T, LeastFrom<T>>(*self, None)
    }

    fn max_ignore_nan_kernel(&self) -> Option<T> {
        best_number::<T, GreatestFrom<T>>(*self, None)
    }

    fn min_max_ignore_nan_kernel(&self) -> Option<(T, T)> {
        ends_of_all(*self)
    }
}
