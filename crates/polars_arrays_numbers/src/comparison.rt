//! Comparisons of two elements, such as "equal" and "less".
ghost use Rattle.std.specs.Prelude.{◌≡◌, Bool, not, int_lt, int_le};
ghost use Rattle.std.specs.Ordering.{int_eq};

use crate::native_type::{NativeType, has_wide_values};

/// A comparison of a left element with a right element.
pub trait Comparison<L, R> {
    // Truth of the comparison for two elements.
    ghost holds: { Self → L → R → Bool };

    /// Returns whether the comparison holds for `left` and `right`.
    fn compare(&self, left: L, right: R) -> bool
        ensures { result ≡ holds self.now left right };

    /// Returns whether the results of many comparisons are packed into bits eight at a time, in
    /// registers. Otherwise each result is first written to a byte, and a vector operation packs
    /// many bytes at once. Registers are faster for elements of more than 64 bits. The packed bits
    /// don't depend on this choice.
    #[inline(always)]
    fn packs_in_registers(&self) -> bool {
        false
    }
}

/// The comparison "the left number is equal to the right one".
#[derive(Clone, Copy, Debug)]
pub struct Equal;

impl<T: NativeType> Comparison<T, T> for Equal {
    ghost holds = { λ _ l r. int_eq (T.value l) (T.value r) };

    #[inline(always)]
    fn compare(&self, left: T, right: T) -> bool {
        left == right
    }

    #[inline(always)]
    fn packs_in_registers(&self) -> bool {
        has_wide_values::<T>()
    }
}

/// The comparison "the left number is not equal to the right one".
#[derive(Clone, Copy, Debug)]
pub struct Unequal;

impl<T: NativeType> Comparison<T, T> for Unequal {
    ghost holds = { λ _ l r. not (int_eq (T.value l) (T.value r)) };

    #[inline(always)]
    fn compare(&self, left: T, right: T) -> bool {
        left != right
    }

    #[inline(always)]
    fn packs_in_registers(&self) -> bool {
        has_wide_values::<T>()
    }
}

/// The comparison "the left number is less than the right one".
#[derive(Clone, Copy, Debug)]
pub struct Less;

impl<T: NativeType> Comparison<T, T> for Less {
    ghost holds = { λ _ l r. int_lt (T.value l) (T.value r) };

    #[inline(always)]
    fn compare(&self, left: T, right: T) -> bool {
        left < right
    }

    #[inline(always)]
    fn packs_in_registers(&self) -> bool {
        has_wide_values::<T>()
    }
}

/// The comparison "the left number is less than or equal to the right one".
#[derive(Clone, Copy, Debug)]
pub struct LessOrEqual;

impl<T: NativeType> Comparison<T, T> for LessOrEqual {
    ghost holds = { λ _ l r. int_le (T.value l) (T.value r) };

    #[inline(always)]
    fn compare(&self, left: T, right: T) -> bool {
        left <= right
    }

    #[inline(always)]
    fn packs_in_registers(&self) -> bool {
        has_wide_values::<T>()
    }
}

/// The comparison "the left number is greater than the right one".
#[derive(Clone, Copy, Debug)]
pub struct Greater;

impl<T: NativeType> Comparison<T, T> for Greater {
    ghost holds = { λ _ l r. int_lt (T.value r) (T.value l) };

    #[inline(always)]
    fn compare(&self, left: T, right: T) -> bool {
        left > right
    }

    #[inline(always)]
    fn packs_in_registers(&self) -> bool {
        has_wide_values::<T>()
    }
}

/// The comparison "the left number is greater than or equal to the right one".
#[derive(Clone, Copy, Debug)]
pub struct GreaterOrEqual;

impl<T: NativeType> Comparison<T, T> for GreaterOrEqual {
    ghost holds = { λ _ l r. int_le (T.value r) (T.value l) };

    #[inline(always)]
    fn compare(&self, left: T, right: T) -> bool {
        left >= right
    }

    #[inline(always)]
    fn packs_in_registers(&self) -> bool {
        has_wide_values::<T>()
    }
}
