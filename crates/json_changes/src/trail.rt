//! The path of the parts that are being compared.

ghost use Rattle.std.specs.Prelude.{◌≡◌, ◌++◌, ◌∷◌, [], OnOk, length, take};
ghost use Rattle.json_paths.specs.Paths.{name, place};
ghost use Rattle.json_changes.specs.Texts.{trail_view};

use json_paths::path::Step;
use std::alloc::{AllocError, Global};

/// Extends the path `trail` by the step to the member named `key`.
pub(crate) fn push_member_step(
    alloc: Global,
    trail: &mut Vec<Step>,
    key: &str,
) -> Result<(), AllocError>
    ensures path { OnOk result
        (trail_view trail.new.items ≡ trail_view trail.old.items ++ name key.now ∷ []) }
    ensures front { OnOk result (take (length trail.old.items) trail.new.items ≡ trail.old.items) }
{
    let name = String::from_str(alloc, key)?;
    trail.push(Step::Name(name))?;
    Ok(())
}

/// Extends the path `trail` by the step to the item at index `i`.
pub(crate) fn push_item_step(trail: &mut Vec<Step>, i: usize) -> Result<(), AllocError>
    ensures path { OnOk result
        (trail_view trail.new.items ≡ trail_view trail.old.items ++ place i ∷ []) }
    ensures front { OnOk result (take (length trail.old.items) trail.new.items ≡ trail.old.items) }
{
    trail.push(Step::Place(i))?;
    Ok(())
}
