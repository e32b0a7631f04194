//! The comparison of two values that are not both arrays or both objects.

ghost use Rattle.std.specs.Prelude.{◌≡◌, ◌++◌, false, IfErr, IfOk, OnOk, map};
ghost use Rattle.std.specs.Str.{bytes_eq};
ghost use Rattle.json.specs.Json.{number};
ghost use Rattle.json.specs.Tree.{HasNumbers};
ghost use Rattle.json.specs.Value.{value_view};
ghost use Rattle.json_decimals.specs.Texts.{normal_number};
ghost use Rattle.json_changes.specs.Differences.{leaf_differences, is_same_leaf};
ghost use Rattle.json_changes.specs.Errors.{IsFaultOf};
ghost use Rattle.json_changes.specs.Rules.{AreNarrow};
ghost use Rattle.json_changes.specs.Texts.{change_view, rules_view, told_at, trail_view};

use crate::parts::{Change, push_change};
use crate::rules::Rules;
use json::Value;
use json_decimals::error::NumberError;
use json_decimals::numbers::push_normal_number;
use json_paths::path::Step;
use std::alloc::Global;

/// Returns whether two texts are the same number, such as `1.5` and `1.50`. If the texts are equal,
/// their exponents are not checked. Otherwise fails with `WideExponent` if an exponent has more
/// than 30 digits, not counting leading zeros, and with `Memory` if an allocation fails.
fn are_same_numbers(alloc: Global, left: &str, right: &str) -> Result<bool, NumberError>
    ensures same { IfOk result
        (λ b. b ≡ bytes_eq (normal_number left.now) (normal_number right.now)) }
    ensures narrow { IfOk result
        (λ b. b ≡ false → AreNarrow (number left.now) (number right.now)) }
    ensures fault { IfErr result (λ e. IsFaultOf (number left.now) (number right.now) e) }
{
    if left == right {
        return Ok(true);
    }
    let mut first = Vec::new(alloc);
    push_normal_number(&mut first, left)?;
    let mut second = Vec::new(alloc);
    push_normal_number(&mut second, right)?;
    Ok(first.as_slice() == second.as_slice())
}

/// Returns whether two values are equal. Returns `false` if one of them is an array or an object,
/// since `compare` handles two arrays and two objects. For two numbers with different texts, fails
/// with `WideExponent` if an exponent has more than 30 digits, not counting leading zeros, and with
/// `Memory` if an allocation fails.
fn are_same(alloc: Global, left: &Value<'_>, right: &Value<'_>) -> Result<bool, NumberError>
    ensures same { IfOk result
        (λ b. b ≡ is_same_leaf (value_view left.now) (value_view right.now)) }
    ensures narrow { IfOk result
        (λ b. b ≡ false → AreNarrow (value_view left.now) (value_view right.now)) }
    ensures fault { IfErr result (λ e. IsFaultOf (value_view left.now) (value_view right.now) e) }
{
    match (left, right) {
        (Value::Null, Value::Null) => Ok(true),
        (Value::Bool(a), Value::Bool(b)) => Ok(*a == *b),
        (Value::Number(a), Value::Number(b)) => are_same_numbers(alloc, a, b),
        (Value::String(a), Value::String(b)) => Ok(*a == *b),
        _ => Ok(false),
    }
}

/// Appends the change between `left` and `right`, the values at the path `trail`, if they differ
/// and the rules report it. The two values are not both arrays or both objects.
///
/// Fails with `WideExponent` if the values are numbers with different texts and an exponent has
/// more than 30 digits, not counting leading zeros. Fails with `Memory` if an allocation fails.
/// After an error no change is appended.
pub(crate) fn compare_leaves(
    alloc: Global,
    rules: &Rules,
    trail: &Vec<Step>,
    changes: &mut Vec<Change>,
    left: &Value<'_>,
    right: &Value<'_>,
) -> Result<(), NumberError>
    requires left_numbers { HasNumbers (value_view left.now) }
    requires right_numbers { HasNumbers (value_view right.now) }
    ensures told { OnOk result (map change_view changes.new.items
        ≡ map change_view changes.old.items
        ++ told_at (rules_view rules.now) (trail_view trail.now.items)
        (leaf_differences (value_view left.now) (value_view right.now))) }
    ensures fault { IfErr result (λ e. IsFaultOf (value_view left.now) (value_view right.now) e) }
{
    if are_same(alloc, left, right)? {
        return Ok(());
    }
    push_change(alloc, rules, trail, changes, Some(left), Some(right))?;
    Ok(())
}
