//! Formats the distinct rows of a state as text. A state collects the distinct rows of a list whose
//! numbers lie in a range.

ghost use Rattle.std.specs.Prelude.{◌≡◌, IfOk};
ghost use Rattle.std.specs.String.{string_bytes};
ghost use Rattle.polars_arrays_flat.specs.Row.{Int};
ghost use Rattle.polars_compute_slots.specs.State.{all_seen, finalised};
ghost use Rattle.polars_tables_operations.specs.Answers.{told};
ghost use Rattle.polars_tables_operations.specs.Distinct.{asked_of};
ghost use Rattle.polars_tables_rows.specs.Faults.{Tells};
ghost use Rattle.polars_tables_rows.specs.Written.{truth_word};

use crate::answering::{write_count, write_made};
use crate::line_number::LineNumber;
use crate::operation::Distinct;
use polars_compute_unique::kernel::RangedUniqueKernel;
use polars_compute_unique::primitive::PrimitiveRangedUniqueState;
use polars_tables_rows::fault::LineError;
use std::alloc::{AllocError, Global};

// Returns the distinct rows of a state as text: numbers in ascending order, and null last. The only
// error is `Memory`.
#[tactic(auto, using(crate::proofs::Answered::answered))]
fn list_distinct<T: LineNumber>(
    alloc: Global,
    state: PrimitiveRangedUniqueState<T>,
) -> Result<String, LineError>
    ensures { Tells string_bytes (told (finalised Int state)) result }
{
    write_made(alloc, state.finalize_unique(alloc))
}

/// Returns the distinct rows of a state, or their number, as text. `asked` says which, and whether
/// null counts. The only error is `Memory`.
pub fn answer_distinct<T: LineNumber>(
    alloc: Global,
    asked: Distinct,
    state: PrimitiveRangedUniqueState<T>,
) -> Result<String, LineError>
    ensures { Tells string_bytes (told (asked_of Int asked state)) result }
{
    match asked {
        Distinct::Listed => list_distinct(alloc, state),
        Distinct::Counted => write_count(alloc, state.finalize_n_unique()),
        Distinct::PresentCounted => write_count(alloc, state.finalize_n_unique_non_null()),
    }
}

/// Returns `true` as text if the state has seen every number of its range and a null, and otherwise
/// `false`. The only error is a failed allocation.
pub fn write_all_seen<T: LineNumber>(
    alloc: Global,
    state: &PrimitiveRangedUniqueState<T>,
) -> Result<String, AllocError>
    ensures { IfOk result (λ text. string_bytes text ≡ truth_word (all_seen state.now)) }
{
    if state.has_seen_all() {
        "true".to_string(alloc)
    } else {
        "false".to_string(alloc)
    }
}
