//! The least and the greatest number of a column.

ghost use Rattle.std.specs.Prelude.{◌≡◌, ◌≢◌, length, option_map, pos, IfErr, IfOk};
ghost use Rattle.arrow_calls.specs.Columns.{IsColumn, rows_lent};
ghost use Rattle.arrow_calls.specs.Statuses.{IsTrueOf, IsTrueStatus};
ghost use Rattle.dunkelva_c.specs.Columns.{IsTrueFault, number_rows_of};
ghost use Rattle.dunkelva_c.specs.Extremes.{AreEnds, AreWrittenEnds};

use crate::columns::at_number_kind;
use arrow_calls::columns::column;
use arrow_calls::fault::{Fault, status};
use arrow_calls::number::{Number, number_of};
use arrow_extremes::extremes::min_max;
use arrow_parts::part::{Part, PartKind};
use polars_compute_slots::number::UniqueNumber;
use std::alloc::Global;

// The least and the greatest number of a column, or `None` if no row is present.
type Ends = Option<(i128, i128)>;

// Converts a pair of numbers to `i128`. Returns `None` for `None`.
fn whole_pair<T: UniqueNumber>(pair: Option<(T, T)>) -> Ends
    ensures { result ≡ option_map (λ p. (T.value p.0, T.value p.1)) pair }
{
    match pair {
        Some((least, greatest)) => Some((least.whole(), greatest.whole())),
        None => None,
    }
}

// Returns the least and the greatest of `values`, the numbers of a part, without those of null
// rows. Fails with `Parts` if the part is not a valid column, and with `Memory` if an allocation
// fails.
fn ends_of<T: UniqueNumber>(alloc: Global, part: &Part<'_>, values: &[T]) -> Result<Ends, Fault>
    ensures ends { IfOk result (AreEnds (rows_lent T.value part.now values.now)) }
    ensures refused { IfErr result (IsTrueOf (IsColumn part.now (length values.now))) }
{
    let column = column(alloc, part, values)?;
    Ok(whole_pair(min_max(&column)))
}

// Returns the least and the greatest number of a part's present rows, or `None` if no row is
// present. The numbers are of the type that the part's kind stands for. Fails with `NotServed` if
// the part has no numbers of 8 to 64 bits, and as `ends_of` does.
fn part_ends(alloc: Global, part: &Part<'_>) -> Result<Ends, Fault>
    ensures ends { IfOk result (AreEnds (number_rows_of part.now)) }
    ensures refused { IfErr result (IsTrueFault part.now) }
{
    at_number_kind!(part, values => ends_of(alloc, part, values))
}

/// Writes the least number of the present rows of a column into `least`, and the greatest one into
/// `greatest`. If no row is present, `least.exists` and `greatest.exists` become 0. Returns 0 on
/// success. Otherwise returns the status of a `Fault`, and `least` and `greatest` are unchanged.
#[unsafe(no_mangle)]
pub extern "C" fn dunkelva_part_min_max(
    alloc: Global,
    part: &Part<'_>,
    least: &mut Number,
    greatest: &mut Number,
) -> i32
    ensures written { result ≡ pos 0 → AreWrittenEnds part.now least.new greatest.new }
    ensures kept { result ≢ pos 0 → (least.new ≡ least.old) × (greatest.new ≡ greatest.old) }
    ensures refused { IsTrueStatus (IsTrueFault part.now) result }
{
    match part_ends(alloc, part) {
        Ok(Some((low, high))) => {
            *least = number_of(Some(low));
            *greatest = number_of(Some(high));
            0
        }
        Ok(None) => {
            *least = number_of(None);
            *greatest = number_of(None);
            0
        }
        Err(fault) => status(fault),
    }
}
