//! Finds the distinct rows of lists of truth values.

ghost use Rattle.std.specs.Prelude.{[], ◌∷◌, map};
ghost use Rattle.std.specs.String.{string_bytes};
ghost use Rattle.polars_arrays_flat.specs.ArrayRows.{truth_rows};
ghost use Rattle.polars_tables_operations.specs.Answers.{truths_answer};
ghost use Rattle.polars_tables_operations.specs.declared.operation.Distinct.TheVariants.{Listed};
ghost use Rattle.polars_tables_rows.specs.Faults.{Tells};

use crate::answering::{write_count, write_made};
use crate::operation::Distinct;
use polars_arrays_flat::boolean::BooleanArray;
use polars_compute_unique::kernel::GenericUniqueKernel;
use polars_tables_rows::fault::LineError;
use std::alloc::Global;

// Returns the distinct rows of a list as text. The only error is `Memory`.
#[tactic(auto, using(crate::proofs::Answered::answered))]
fn list_distinct(alloc: Global, list: &BooleanArray) -> Result<String, LineError>
    ensures { Tells string_bytes (truths_answer Listed (truth_rows list.now ∷ [])) result }
{
    write_made(alloc, list.unique(alloc))
}

/// Returns the distinct rows of a single list, or their number, as text. Fails with `Length` if
/// there is not exactly one list, and with `Memory` if an allocation fails.
pub fn answer_truths(
    alloc: Global,
    asked: Distinct,
    lists: &[BooleanArray],
) -> Result<String, LineError>
    ensures { Tells string_bytes (truths_answer asked (map truth_rows lists.now)) result }
{
    let [list] = lists else {
        return Err(LineError::Length);
    };
    match asked {
        Distinct::Listed => list_distinct(alloc, list),
        Distinct::Counted => write_count(alloc, list.n_unique()),
        Distinct::PresentCounted => write_count(alloc, list.n_unique_non_null()),
    }
}
