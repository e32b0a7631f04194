//! Counts of the bits of each number of a column.

ghost use Rattle.std.specs.Prelude.{◌≡◌, ◌≢◌, length, pos, IfErr, OnErr, OnOk};
ghost use Rattle.arrow_calls.specs.Operations.{counting_number};
ghost use Rattle.arrow_calls.specs.Statuses.{IsTrueStatus};
ghost use Rattle.dunkelva_c.specs.ColumnCounts.{AreCounts, AreNumberedCounts, IsTrueCountFault};
ghost use Rattle.dunkelva_c.specs.ColumnCounts.{IsTrueCountingFault};

use crate::columns::at_number_kind;
use arrow_calls::counts::count_numbers;
use arrow_calls::fault::{Fault, status};
use arrow_calls::operations::counting_of;
use arrow_columns::counting::Counting;
use arrow_parts::part::{Part, PartKind};
use std::alloc::Global;

// Counts the bits that `counting` selects in each row of a part, and writes the counts into
// `counts`. The rows are numbers of the type that the part's kind stands for. Fails with
// `NotServed` if the part has no numbers of 8 to 64 bits, and as `count_numbers` does.
fn count_part(
    alloc: Global,
    counting: Counting,
    part: &Part<'_>,
    counts: &mut [u32],
) -> Result<(), Fault>
    ensures written { OnOk result (AreCounts counting part.now counts.new) }
    ensures kept { OnErr result (counts.new ≡ counts.old) }
    ensures refused { IfErr result (IsTrueCountFault (length counts.old) part.now) }
{
    at_number_kind!(part, values => count_numbers(alloc, counting, part, values, counts))
}

/// Counts bits of each row of a column, and writes the counts into `counts`, which must have the
/// length of the column. The validity of the counts is that of the column, and the count of a null
/// row is arbitrary. `counting` is 0 for ones, 1 for zeros, 2 for leading ones, 3 for leading
/// zeros, 4 for trailing ones and 5 for trailing zeros. Returns 0 on success. Otherwise returns the
/// status of a `Fault`, and `counts` is unchanged.
#[unsafe(no_mangle)]
pub extern "C" fn dunkelva_part_count_bits(
    alloc: Global,
    counting: u32,
    part: &Part<'_>,
    counts: &mut [u32],
) -> i32
    ensures written { result ≡ pos 0 → AreNumberedCounts
        (counting_number counting) part.now counts.new }
    ensures kept { result ≢ pos 0 → counts.new ≡ counts.old }
    ensures refused { IsTrueStatus (IsTrueCountingFault (counting_number counting)
        (length counts.old) part.now) result }
{
    let Some(counting) = counting_of(counting) else {
        return status(Fault::NotServed);
    };
    match count_part(alloc, counting, part, counts) {
        Ok(()) => 0,
        Err(fault) => status(fault),
    }
}
