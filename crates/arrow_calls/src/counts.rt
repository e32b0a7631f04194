//! Counts of the bits of each number of a part.

ghost use Rattle.std.specs.Prelude.{◌≡◌, length, map, pos, IfErr, OnErr, OnOk};
ghost use Rattle.num_traits.specs.Laws.{bit_len};
ghost use Rattle.arrow_calls.specs.Columns.{rows_lent};
ghost use Rattle.arrow_calls.specs.Counts.{IsTrueCountsFault};
ghost use Rattle.arrow_columns.specs.Counting.{counted_by};
ghost use Rattle.polars_compute_reductions.specs.Bitwise.{counted};

use crate::columns::column;
use crate::fault::Fault;
use arrow_columns::counting::{Counting, count_bits};
use arrow_parts::part::Part;
use polars_compute_reductions::bit_number::BitNumber;
use std::alloc::Global;

/// Counts the bits that `counting` selects in each of `values`, the numbers of a part, and writes
/// the counts into `counts`. The validity of the counts is that of the part, and the count of a
/// null row is arbitrary. Fails with `Parts` if `values` does not have one number for each row or
/// the part has too few validity bits, with `Room` if `counts` does not have one element for each
/// row, and with `Memory` if an allocation fails. After an error, `counts` is unchanged.
pub fn count_numbers<T: BitNumber>(
    alloc: Global,
    counting: Counting,
    part: &Part<'_>,
    values: &[T],
    counts: &mut [u32],
) -> Result<(), Fault>
    ensures written { OnOk result (rows_lent (λ n. pos n) part.now counts.new
        ≡ map (counted (counted_by counting) (bit_len T.width))
        (rows_lent T.value part.now values.now)) }
    ensures kept { OnErr result (counts.new ≡ counts.old) }
    ensures refused { IfErr result (IsTrueCountsFault (length values.now)
        (length counts.old) part.now) }
{
    let column = column(alloc, part, values)?;
    if counts.len() != part.rows {
        return Err(Fault::Room);
    }
    count_bits(counting, &column, counts);
    Ok(())
}
