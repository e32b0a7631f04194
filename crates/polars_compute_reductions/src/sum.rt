//! Wrapping sums of numbers.

ghost use Rattle.std.specs.Prelude.{◌≡◌, ◌+ℤ◌, length};
ghost use Rattle.num_traits.specs.Laws.{bit_len};
ghost use Rattle.polars_arrays_flat.specs.ArrayRows.{number_rows};
ghost use Rattle.polars_arrays_flat.specs.StoredRows.{masked, number_slots};
ghost use Rattle.polars_arrays_numbers.specs.Wrapping.{wrapped};
ghost use Rattle.polars_compute_reductions.specs.Sum.{total};

use crate::fold::{fold_all, fold_present};
use crate::operator::Operator;
use crate::wrapping::WrappingNumber;
use num_traits::Zero;
use polars_arrays_bits::bit_mask::BitMask;
use polars_arrays_flat::array::Array;
use polars_arrays_flat::primitive::PrimitiveArray;
use polars_arrays_numbers::native_type::NativeType;

/// A number type with wrapping addition.
pub trait WrappingAdd: WrappingNumber {
    /// Returns the sum of the two numbers, wrapped to the type.
    fn wrapping_add(&self, v: &Self) -> Self
        ensures { Self.value result
            ≡ wrapped Self.low (bit_len Self.width) (Self.value self.now +ℤ Self.value v.now) };
}

impl<T: WrappingNumber + num_traits::WrappingAdd> WrappingAdd for T {
    #[inline(always)]
    fn wrapping_add(&self, v: &T) -> T {
        num_traits::WrappingAdd::wrapping_add(self, v)
    }
}

/// A number type whose slices have wrapping sums.
pub trait WrappingSum: NativeType {
    /// Returns the sum of the numbers, wrapped to the type, or 0 if there are none. For example,
    /// the `u8` numbers 200 and 100 give 44.
    fn wrapping_sum(vals: &[Self]) -> Self
        ensures { Self.value result
            ≡ wrapped Self.low (bit_len Self.width) (total (number_slots Self.value vals.now)) };

    /// Returns the sum of the numbers whose bit of `mask` is 1, wrapped to the type, or 0 if there
    /// are none.
    fn wrapping_sum_with_validity(vals: &[Self], mask: &BitMask<'_>) -> Self
        requires { length mask.now ≡ length vals.now }
        ensures { Self.value result
            ≡ wrapped Self.low (bit_len Self.width)
            (total (masked mask.now (number_slots Self.value vals.now))) };
}

/// The operator of wrapping addition, whose folds are wrapped sums.
#[derive(Drop)]
pub struct Sum;

impl<T: NativeType + WrappingAdd + Zero> Operator<T> for Sum {
    ghost use Rattle.std.specs.Prelude.{pos};
    ghost use Rattle.num_traits.specs.Laws.{bit_len};
    ghost use Rattle.polars_arrays_numbers.specs.Wrapping.{wrapped};
    ghost use Rattle.polars_compute_reductions.specs.Sum.{wrapped_sum};
    ghost use Rattle.polars_compute_reductions.specs.SumLaws.{sum_folds};

    ghost joined = { wrapped_sum T.low (bit_len T.width) };

    ghost neutral = { λ operator. wrapped T.low (bit_len T.width) (pos 0) };

    ghost folds_law = { λ operator. sum_folds T.low (bit_len T.width) };

    #[inline(always)]
    fn start(&self) -> T {
        T::zero()
    }

    #[inline(always)]
    fn join(&self, left: T, right: T) -> T {
        WrappingAdd::wrapping_add(&left, &right)
    }
}

impl<T: NativeType + WrappingAdd + Zero> WrappingSum for T {
    fn wrapping_sum(vals: &[T]) -> T {
        fold_all(&Sum, vals)
    }

    fn wrapping_sum_with_validity(vals: &[T], mask: &BitMask<'_>) -> T {
        fold_present(&Sum, vals, mask)
    }
}

/// Returns the sum of the present rows, wrapped to the type, or 0 if no row is present.
pub fn wrapping_sum_arr<T: WrappingSum>(array: &PrimitiveArray<T>) -> T
    ensures { T.value result
        ≡ wrapped T.low (bit_len T.width) (total (number_rows T.value array.now)) }
{
    match array.validity() {
        Some(validity) => {
            T::wrapping_sum_with_validity(array.values(), &BitMask::from_bitmap(validity))
        }
        None => T::wrapping_sum(array.values()),
    }
}
