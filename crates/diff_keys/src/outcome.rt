//! The outcome of a comparison.

ghost use Rattle.std.specs.Prelude.{◌≡◌};
ghost use Rattle.diff_keys.specs.Outcome.{outcome_of};

use crate::matching::Matching;

/// The outcome of comparing two inputs.
#[derive(Clone, Copy)]
pub enum Outcome {
    /// The inputs have no difference.
    Same,
    /// The inputs have a difference.
    Different,
}

/// Returns `Same` if `same_columns` is true and `changed`, `matching.removed` and `matching.added`
/// are empty, and else `Different`. `changed` has the indices of the matched pairs whose two rows
/// differ. `same_columns` is true if the columns of the inputs have no difference that counts.
pub fn outcome_of(matching: &Matching, changed: &[usize], same_columns: bool) -> Outcome
    ensures { result ≡ outcome_of matching.now changed.now same_columns }
{
    let same_rows = changed.is_empty() && matching.removed.is_empty() && matching.added.is_empty();
    if same_rows && same_columns {
        return Outcome::Same;
    }
    Outcome::Different
}
