//! The comparison of two JSON values, part by part.
//!
//! The functions fail with `Memory` or `AllocError` if an allocation fails. Functions whose error
//! is `NumberError` also fail with `WideExponent` if two numbers with different texts are compared
//! and the exponent of one has more than 30 digits, not counting leading zeros. After an error some
//! changes may be appended already, and `trail` may be longer. On success `trail` is unchanged.

ghost use Rattle.std.specs.Prelude.{◌≡◌, ◌++◌, IfErr, IfSome, MatchOption, OnOk, drop, map};
ghost use Rattle.json.specs.Json.{array, object};
ghost use Rattle.json.specs.Tree.{HasNumbers};
ghost use Rattle.json.specs.Value.{value_view, items_view, members_view};
ghost use Rattle.json_changes.specs.Differences.{added_member, added_members, alone_items, beside};
ghost use Rattle.json_changes.specs.Differences.{differences};
ghost use Rattle.json_changes.specs.Errors.{IsFaultOf};
ghost use Rattle.json_changes.specs.Names.{seen};
ghost use Rattle.json_changes.specs.Texts.{change_view, only_in, rules_view, told_at, trail_view};

use crate::leaves::compare_leaves;
use crate::members::{items_of, members_of};
use crate::names::find_all;
use crate::parts::{Change, Side, push_alone};
use crate::rules::Rules;
use crate::trail::{push_item_step, push_member_step};
use json::Value;
use json_decimals::error::NumberError;
use json_paths::path::Step;
use std::alloc::{AllocError, Global};

/// Appends a change for each of `items` from index `from` on, if the rules report it. Only the
/// array on `side` has these items. `trail` is the path of the array.
fn push_items(
    alloc: Global,
    rules: &Rules,
    trail: &mut Vec<Step>,
    changes: &mut Vec<Change>,
    side: Side,
    items: &Vec<Value<'_>>,
    from: usize,
) -> Result<(), AllocError>
    requires { HasNumbers (array (items_view items.now.items)) }
    ensures told { OnOk result (map change_view changes.new.items
        ≡ map change_view changes.old.items
        ++ told_at (rules_view rules.now) (trail_view trail.old.items)
        (alone_items (only_in side) from (items_view (drop from items.now.items)))) }
    ensures trail { OnOk result (trail.new.items ≡ trail.old.items) }
{
    for i in from..items.len() {
        let end = trail.len();
        push_item_step(trail, i)?;
        push_alone(alloc, rules, trail, changes, side, &items[i])?;
        trail.truncate(end);
    }
    Ok(())
}

/// Appends the change of `added`, a member of the right object, if `found` is `None` and the rules
/// report the change. `found` is the value that the left object has at the name of `added`. `trail`
/// is the path of the two objects.
fn push_added_member(
    alloc: Global,
    rules: &Rules,
    trail: &mut Vec<Step>,
    changes: &mut Vec<Change>,
    found: Option<&Value<'_>>,
    added: &(&str, Value<'_>),
) -> Result<(), AllocError>
    requires { HasNumbers (value_view added.now.1) }
    ensures told { OnOk result (map change_view changes.new.items
        ≡ map change_view changes.old.items
        ++ told_at (rules_view rules.now) (trail_view trail.old.items)
        (added_member added.now.0.now (value_view added.now.1)
        (seen found.entry))) }
    ensures trail { OnOk result (trail.new.items ≡ trail.old.items) }
{
    if found.is_some() {
        return Ok(());
    }
    let end = trail.len();
    push_member_step(alloc, trail, added.0)?;
    push_alone(alloc, rules, trail, changes, Side::Right, &added.1)?;
    trail.truncate(end);
    Ok(())
}

/// Appends a change for each member that only the right object has, if the rules report it. `own`
/// are the members of the left object, `other` those of the right one. `trail` is the path of the
/// two objects.
fn push_added_members<'a, 'b>(
    alloc: Global,
    rules: &Rules,
    trail: &mut Vec<Step>,
    changes: &mut Vec<Change>,
    own: &Vec<(&'a str, Value<'a>)>,
    other: &Vec<(&'b str, Value<'b>)>,
) -> Result<(), AllocError>
    requires { HasNumbers (object (members_view other.now.items)) }
    ensures told { OnOk result (map change_view changes.new.items
        ≡ map change_view changes.old.items
        ++ told_at (rules_view rules.now) (trail_view trail.old.items)
        (added_members (members_view own.now.items) (members_view other.now.items))) }
    ensures trail { OnOk result (trail.new.items ≡ trail.old.items) }
{
    let found = find_all(alloc, other, own)?;
    for i in 0..other.len() {
        push_added_member(alloc, rules, trail, changes, found[i], &other[i])?;
    }
    Ok(())
}

/// Appends those changes between two values that the rules report. `trail` is the path of the
/// values. Arrays are compared item by item, and objects member by member.
#[cycle(compare)]
pub(crate) fn compare<'a, 'b>(
    alloc: Global,
    rules: &Rules,
    trail: &mut Vec<Step>,
    changes: &mut Vec<Change>,
    left: &Value<'a>,
    right: &Value<'b>,
) -> Result<(), NumberError>
    requires left_numbers { HasNumbers (value_view left.now) }
    requires right_numbers { HasNumbers (value_view right.now) }
    ensures told { OnOk result (map change_view changes.new.items
        ≡ map change_view changes.old.items
        ++ told_at (rules_view rules.now) (trail_view trail.old.items)
        (differences (value_view left.now) (value_view right.now))) }
    ensures trail { OnOk result (trail.new.items ≡ trail.old.items) }
    ensures fault { IfErr result (λ e. IsFaultOf (value_view left.now) (value_view right.now) e) }
{
    if let (Some(own), Some(other)) = (items_of(left), items_of(right)) {
        return compare_items(alloc, rules, trail, changes, own, other);
    }
    if let (Some(own), Some(other)) = (members_of(left), members_of(right)) {
        return compare_members(alloc, rules, trail, changes, own, other);
    }
    compare_leaves(alloc, rules, trail, changes, left, right)
}

/// Appends those changes between the items of two arrays that the rules report. `own` are the items
/// of the left array, `other` those of the right one, and `trail` is the path of the arrays. Items
/// with the same index are compared, and each further item of the longer array is a change.
#[cycle(compare)]
fn compare_items<'a, 'b>(
    alloc: Global,
    rules: &Rules,
    trail: &mut Vec<Step>,
    changes: &mut Vec<Change>,
    own: &Vec<Value<'a>>,
    other: &Vec<Value<'b>>,
) -> Result<(), NumberError>
    requires left_numbers { HasNumbers (array (items_view own.now.items)) }
    requires right_numbers { HasNumbers (array (items_view other.now.items)) }
    ensures told { OnOk result (map change_view changes.new.items
        ≡ map change_view changes.old.items
        ++ told_at (rules_view rules.now) (trail_view trail.old.items)
        (differences (array (items_view own.now.items)) (array (items_view other.now.items)))) }
    ensures trail { OnOk result (trail.new.items ≡ trail.old.items) }
    ensures fault { IfErr result (λ e. IsFaultOf (array (items_view own.now.items))
        (array (items_view other.now.items)) e) }
{
    let shared = own.len().min(other.len());
    for i in 0..shared {
        let end = trail.len();
        push_item_step(trail, i)?;
        compare(alloc, rules, trail, changes, &own[i], &other[i])?;
        trail.truncate(end);
    }
    push_items(alloc, rules, trail, changes, Side::Left, own, shared)?;
    push_items(alloc, rules, trail, changes, Side::Right, other, shared)?;
    Ok(())
}

/// Appends those changes between `left` and `found` that the rules report. `left` is the value of a
/// member of the left object, and `found` the value that the right object has at the same name. If
/// `found` is `None`, only the left object has the member, and this is the change. `trail` is the
/// path of the member.
#[cycle(compare)]
fn compare_found<'a, 'b>(
    alloc: Global,
    rules: &Rules,
    trail: &mut Vec<Step>,
    changes: &mut Vec<Change>,
    left: &Value<'a>,
    found: Option<&Value<'b>>,
) -> Result<(), NumberError>
    requires left_numbers { HasNumbers (value_view left.now) }
    requires right_numbers { IfSome found (λ v. HasNumbers (value_view v.now)) }
    ensures told { OnOk result (map change_view changes.new.items
        ≡ map change_view changes.old.items
        ++ told_at (rules_view rules.now) (trail_view trail.old.items)
        (beside (value_view left.now) (λ k. differences (value_view left.now) k)
        (seen found.entry))) }
    ensures trail { OnOk result (trail.new.items ≡ trail.old.items) }
    ensures fault { IfErr result (λ e. MatchOption found.entry (e ≡ NumberError.Memory)
        (λ v. IsFaultOf (value_view left.now) (value_view v.now) e)) }
{
    match found {
        Some(right) => compare(alloc, rules, trail, changes, left, right),
        None => {
            push_alone(alloc, rules, trail, changes, Side::Left, left)?;
            Ok(())
        }
    }
}

/// Appends those changes between the members of two objects that the rules report. `own` are the
/// members of the left object, `other` those of the right one, and `trail` is the path of the
/// objects. Members with the same name are compared, and each member that only one object has is a
/// change.
#[cycle(compare)]
fn compare_members<'a, 'b>(
    alloc: Global,
    rules: &Rules,
    trail: &mut Vec<Step>,
    changes: &mut Vec<Change>,
    own: &Vec<(&'a str, Value<'a>)>,
    other: &Vec<(&'b str, Value<'b>)>,
) -> Result<(), NumberError>
    requires left_numbers { HasNumbers (object (members_view own.now.items)) }
    requires right_numbers { HasNumbers (object (members_view other.now.items)) }
    ensures told { OnOk result (map change_view changes.new.items
        ≡ map change_view changes.old.items
        ++ told_at (rules_view rules.now) (trail_view trail.old.items)
        (differences (object (members_view own.now.items))
        (object (members_view other.now.items)))) }
    ensures trail { OnOk result (trail.new.items ≡ trail.old.items) }
    ensures fault { IfErr result (λ e. IsFaultOf (object (members_view own.now.items))
        (object (members_view other.now.items)) e) }
{
    let found = find_all(alloc, own, other)?;
    for i in 0..own.len() {
        let member = &own[i];
        let end = trail.len();
        push_member_step(alloc, trail, member.0)?;
        compare_found(alloc, rules, trail, changes, &member.1, found[i])?;
        trail.truncate(end);
    }
    push_added_members(alloc, rules, trail, changes, own, other)?;
    Ok(())
}
