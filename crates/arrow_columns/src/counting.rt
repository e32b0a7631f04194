//! Counts of the bits of each number of a column.

ghost use Rattle.std.specs.Prelude.{◌≡◌, ℕ, ℤ, List, Bool, length, map, pos};
ghost use Rattle.num_traits.specs.Laws.{bit_len};
ghost use Rattle.arrow_columns.specs.Counting.{counted_by};
ghost use Rattle.polars_arrays_flat.specs.ArrayRows.{number_rows};
ghost use Rattle.polars_arrays_flat.specs.StoredRows.{number_slots, rows_under};
ghost use Rattle.polars_compute_reductions.specs.Bitwise.{counted, number_bits};

use crate::column::Column;
use crate::writing::{Computed, write};
use polars_arrays_numbers::native_type::NativeType;
use polars_compute_reductions::bit_counts::{
    BitCount, LeadingOnes, LeadingZeros, Ones, TrailingOnes, TrailingZeros, Zeros,
};
use polars_compute_reductions::bit_number::BitNumber;

/// A way to count bits of a number: all bits that are 1 or 0, or the run of equal bits at the upper
/// (leading) or lower (trailing) end.
#[derive(Clone, Copy, PartialEq, Eq, Debug)]
pub enum Counting {
    Ones,
    Zeros,
    LeadingOnes,
    LeadingZeros,
    TrailingOnes,
    TrailingZeros,
}

// The number of bits that `count` counts in each of `values`, as `Computed` numbers.
#[derive(Drop)]
struct Counts<'a, T, C> {
    values: &'a [T],
    count: C,
}

impl<'a, T: NativeType, C: BitCount<T>> Computed<u32> for Counts<'a, T, C> {
    ghost use Rattle.std.specs.Prelude.{map, pos};
    ghost use Rattle.num_traits.specs.Laws.{bit_len};
    ghost use Rattle.polars_compute_reductions.specs.Bitwise.{number_bits};

    ghost numbers = { λ counts. map (λ x. pos
        (C.amount (number_bits (bit_len T.width) (T.value x)))) counts.values.now };

    #[inline(always)]
    fn count(&self) -> usize {
        self.values.len()
    }

    #[inline(always)]
    fn number(&self, i: usize) -> u32 {
        self.count.count(self.values[i])
    }
}

// Applies `count` to each stored value of a column, including those of null rows, and writes the
// counts into `out`, which has the length of the column.
fn write_counts<T: NativeType, C: BitCount<T> + Drop>(
    count: C,
    column: &Column<'_, T>,
    out: &mut [u32],
)
    requires { length out.old ≡ length column.now.values }
    ensures { rows_under column.now.validity (number_slots (λ n. pos n) out.new)
        ≡ map (counted C.amount (bit_len T.width)) (number_rows T.value column.now) }
{
    let values = column.values();
    write(&Counts { values, count }, out);
}

/// Counts the bits that `counting` selects in each row of a column, and writes the counts into
/// `out`, which has the length of the column. The validity of the counts is that of the column, and
/// the count of a null row is arbitrary.
pub fn count_bits<T: BitNumber>(counting: Counting, column: &Column<'_, T>, out: &mut [u32])
    requires { length out.old ≡ length column.now.values }
    ensures { rows_under column.now.validity (number_slots (λ n. pos n) out.new)
        ≡ map (counted (counted_by counting) (bit_len T.width)) (number_rows T.value column.now) }
{
    match counting {
        Counting::Ones => write_counts(Ones, column, out),
        Counting::Zeros => write_counts(Zeros, column, out),
        Counting::LeadingOnes => write_counts(LeadingOnes, column, out),
        Counting::LeadingZeros => write_counts(LeadingZeros, column, out),
        Counting::TrailingOnes => write_counts(TrailingOnes, column, out),
        Counting::TrailingZeros => write_counts(TrailingZeros, column, out),
    }
}
