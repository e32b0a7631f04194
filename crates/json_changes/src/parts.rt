//! The changes that are reported, as text.

ghost use Rattle.std.specs.Option.{option_map};
ghost use Rattle.std.specs.Prelude.{◌≡◌, ◌++◌, ◌∷◌, [], IfOk, IfSome, OnOk, map};
ghost use Rattle.json.specs.Tree.{HasNumbers};
ghost use Rattle.json.specs.Value.{value_view};
ghost use Rattle.json_changes.specs.Differences.{apart};
ghost use Rattle.json_changes.specs.Rules.{PartsAreNarrow};
ghost use Rattle.json_changes.specs.Texts.{change_view, only_in, part_text, rules_view, told_at};
ghost use Rattle.json_changes.specs.Texts.{trail_view};

use crate::paths::text_of_path;
use crate::rules::Rules;
use json::{Value, to_vec};
use json_paths::path::Step;
use std::alloc::{AllocError, Global};

/// A difference between two values, as text.
#[derive(Drop)]
pub struct Change {
    /// The path of the part that differs, such as `items[0].price`.
    pub path: Vec<u8>,
    /// The part in the left value as JSON, or `None` if it is missing.
    pub left: Option<Vec<u8>>,
    /// The part in the right value as JSON, or `None` if it is missing.
    pub right: Option<Vec<u8>>,
}

/// One of two values that are compared.
#[derive(Clone, Copy)]
pub(crate) enum Side {
    Left,
    Right,
}

/// Returns a part as JSON text, or `None` if `part` is `None`.
fn text_of(alloc: Global, part: Option<&Value<'_>>) -> Result<Option<Vec<u8>>, AllocError>
    requires { IfSome part (λ v. HasNumbers (value_view v.now)) }
    ensures { IfOk result (λ text. option_map (λ v. v.items) text
        ≡ option_map (λ v. part_text (value_view v.now)) part.entry) }
{
    match part {
        Some(value) => Ok(Some(to_vec(alloc, value)?)),
        None => Ok(None),
    }
}

/// Appends the change between two parts at the path `trail`, if the rules report it. A part is
/// `None` if it is missing.
pub(crate) fn push_change(
    alloc: Global,
    rules: &Rules,
    trail: &Vec<Step>,
    changes: &mut Vec<Change>,
    left: Option<&Value<'_>>,
    right: Option<&Value<'_>>,
) -> Result<(), AllocError>
    requires left_numbers { IfSome left (λ v. HasNumbers (value_view v.now)) }
    requires right_numbers { IfSome right (λ v. HasNumbers (value_view v.now)) }
    requires narrow { PartsAreNarrow (option_map (λ v. value_view v.now) left)
        (option_map (λ v. value_view v.now) right) }
    ensures { OnOk result (map change_view changes.new.items
        ≡ map change_view changes.old.items
        ++ told_at (rules_view rules.now) (trail_view trail.now.items) (apart
        (option_map (λ v. value_view v.now) left.entry)
        (option_map (λ v. value_view v.now) right.entry) ∷ [])) }
{
    if !rules.tell(trail, left, right) {
        return Ok(());
    }
    let left = text_of(alloc, left)?;
    let right = text_of(alloc, right)?;
    let path = text_of_path(alloc, trail)?;
    changes.push(Change { path, left, right })?;
    Ok(())
}

/// Appends the change of a part that only the value on `side` has, if the rules report it. `trail`
/// is the path of the part.
pub(crate) fn push_alone(
    alloc: Global,
    rules: &Rules,
    trail: &Vec<Step>,
    changes: &mut Vec<Change>,
    side: Side,
    part: &Value<'_>,
) -> Result<(), AllocError>
    requires { HasNumbers (value_view part.now) }
    ensures { OnOk result (map change_view changes.new.items
        ≡ map change_view changes.old.items
        ++ told_at (rules_view rules.now) (trail_view trail.now.items)
        (only_in side (value_view part.now) ∷ [])) }
{
    match side {
        Side::Left => push_change(alloc, rules, trail, changes, Some(part), None),
        Side::Right => push_change(alloc, rules, trail, changes, None, Some(part)),
    }
}
