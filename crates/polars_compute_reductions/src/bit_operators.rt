//! Operators that combine the bits of two numbers.

use crate::bit_number::BitNumber;
use crate::operator::Operator;

/// The operator that combines two numbers bit by bit by AND.
#[derive(Drop)]
pub struct And;

/// The operator that combines two numbers bit by bit by OR.
#[derive(Drop)]
pub struct Or;

/// The operator that combines two numbers bit by bit by exclusive OR.
#[derive(Drop)]
pub struct Xor;

impl<T: BitNumber> Operator<T> for And {
    ghost use Rattle.std.specs.Prelude.{◌-◌, ◌^◌, bit_and, pos};
    ghost use Rattle.num_traits.specs.Laws.{bit_len};
    ghost use Rattle.polars_arrays_numbers.specs.Wrapping.{wrapped};
    ghost use Rattle.polars_compute_reductions.specs.BitLaws.{and_folds};
    ghost use Rattle.polars_compute_reductions.specs.Bitwise.{joined_bits};

    ghost joined = { joined_bits bit_and T.low (bit_len T.width) };

    ghost neutral = { λ operator. wrapped T.low (bit_len T.width) (pos (2 ^ bit_len T.width - 1)) };

    ghost folds_law = { λ operator. and_folds T.low (bit_len T.width) };

    #[inline(always)]
    fn start(&self) -> T {
        !T::zero()
    }

    #[inline(always)]
    fn join(&self, left: T, right: T) -> T {
        left.law_fits();
        right.law_fits();
        left & right
    }
}

impl<T: BitNumber> Operator<T> for Or {
    ghost use Rattle.std.specs.Prelude.{bit_or, pos};
    ghost use Rattle.num_traits.specs.Laws.{bit_len};
    ghost use Rattle.polars_arrays_numbers.specs.Wrapping.{wrapped};
    ghost use Rattle.polars_compute_reductions.specs.BitLaws.{or_folds};
    ghost use Rattle.polars_compute_reductions.specs.Bitwise.{joined_bits};

    ghost joined = { joined_bits bit_or T.low (bit_len T.width) };

    ghost neutral = { λ operator. wrapped T.low (bit_len T.width) (pos 0) };

    ghost folds_law = { λ operator. or_folds T.low (bit_len T.width) };

    #[inline(always)]
    fn start(&self) -> T {
        T::zero()
    }

    #[inline(always)]
    fn join(&self, left: T, right: T) -> T {
        left.law_fits();
        right.law_fits();
        left | right
    }
}

impl<T: BitNumber> Operator<T> for Xor {
    ghost use Rattle.std.specs.Prelude.{bit_xor, pos};
    ghost use Rattle.num_traits.specs.Laws.{bit_len};
    ghost use Rattle.polars_arrays_numbers.specs.Wrapping.{wrapped};
    ghost use Rattle.polars_compute_reductions.specs.BitLaws.{xor_folds};
    ghost use Rattle.polars_compute_reductions.specs.Bitwise.{joined_bits};

    ghost joined = { joined_bits bit_xor T.low (bit_len T.width) };

    ghost neutral = { λ operator. wrapped T.low (bit_len T.width) (pos 0) };

    ghost folds_law = { λ operator. xor_folds T.low (bit_len T.width) };

    #[inline(always)]
    fn start(&self) -> T {
        T::zero()
    }

    #[inline(always)]
    fn join(&self, left: T, right: T) -> T {
        left.law_fits();
        right.law_fits();
        left ^ right
    }
}
