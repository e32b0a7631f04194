//! The differences between two JSON values.

ghost use Rattle.std.specs.Prelude.{◌≡◌, ◌↔◌, [], IfErr, IfOk, IsTrue, map};
ghost use Rattle.json.specs.Strict.{HasUniqueKeys};
ghost use Rattle.json.specs.Tree.{HasNumbers};
ghost use Rattle.json.specs.Value.{value_view};
ghost use Rattle.json_changes.specs.Errors.{IsFaultOf};
ghost use Rattle.json_changes.specs.Rules.{differences_told};
ghost use Rattle.json_changes.specs.Texts.{change_view, rules_view, told};

use crate::compare::compare;
pub use crate::parts::Change;
pub use crate::rules::{Rules, Tolerance};
use json::Value;
use json_decimals::error::NumberError;
use std::alloc::Global;

/// Returns the differences between `left` and `right` that are reported under `rules`, each as
/// text. For example, `{"id": 1}` and `{"id": 2}` differ at the path `id`, in the texts `1` and
/// `2`.
///
/// Fails with `WideExponent` only if the exponent of a number has more than 30 digits, not counting
/// leading zeros. This can happen even if no difference of the number is to be reported. Fails with
/// `Memory` if an allocation fails.
pub fn changes_under(
    alloc: Global,
    left: &Value<'_>,
    right: &Value<'_>,
    rules: &Rules,
) -> Result<Vec<Change>, NumberError>
    requires left_unique { HasUniqueKeys (value_view left.now) }
    requires right_unique { HasUniqueKeys (value_view right.now) }
    requires left_numbers { HasNumbers (value_view left.now) }
    requires right_numbers { HasNumbers (value_view right.now) }
    ensures told { IfOk result (λ changes. map change_view changes.items ≡ map told
        (differences_told (rules_view rules.now) (value_view left.now) (value_view right.now))) }
    ensures fault { IfErr result (λ e. IsFaultOf (value_view left.now) (value_view right.now) e) }
{
    let mut trail = Vec::new(alloc);
    let mut changes = Vec::new(alloc);
    compare(alloc, rules, &mut trail, &mut changes, left, right)?;
    Ok(changes)
}

/// Returns whether no difference between two values is reported under `rules`.
///
/// Fails with `WideExponent` only if the exponent of a number has more than 30 digits, not counting
/// leading zeros. This can happen even if no difference of the number is to be reported. Fails with
/// `Memory` if an allocation fails.
pub fn are_same_under(
    alloc: Global,
    left: &Value<'_>,
    right: &Value<'_>,
    rules: &Rules,
) -> Result<bool, NumberError>
    requires left_unique { HasUniqueKeys (value_view left.now) }
    requires right_unique { HasUniqueKeys (value_view right.now) }
    requires left_numbers { HasNumbers (value_view left.now) }
    requires right_numbers { HasNumbers (value_view right.now) }
    ensures same { IfOk result (λ b. IsTrue b ↔ (differences_told (rules_view rules.now)
        (value_view left.now) (value_view right.now) ≡ [])) }
    ensures fault { IfErr result (λ e. IsFaultOf (value_view left.now) (value_view right.now) e) }
{
    let changes = changes_under(alloc, left, right, rules)?;
    Ok(changes.is_empty())
}
