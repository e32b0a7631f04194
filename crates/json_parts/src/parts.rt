//! The parts of values, and their paths.

ghost use Rattle.std.specs.Prelude.{◌≡◌, ◌++◌, ◌∷◌, [], IfOk, OnOk, map};
ghost use Rattle.json.specs.Value.{items_view, members_view, value_view};
ghost use Rattle.json_parts.specs.Parts.{item_parts, item_path, member_parts, part, part_view};
ghost use Rattle.json_parts.specs.Parts.{parts_below};

use crate::names::{push_any_item, push_name};
use json::Value;
use std::alloc::{AllocError, Global};

/// A member's value or an item at some depth inside a JSON value, and its path. The path is a text
/// in which `[]` is any item of an array.
#[derive(Drop)]
pub struct Part<'v, 'a> {
    pub path: Vec<u8>,
    pub value: &'v Value<'a>,
}

/// Appends `value` to `parts`, with a copy of the path `path`.
fn push_part<'v, 'a>(
    alloc: Global,
    path: &[u8],
    parts: &mut Vec<Part<'v, 'a>>,
    value: &'v Value<'a>,
) -> Result<(), AllocError>
    ensures { OnOk result (map part_view parts.new.items
        ≡ map part_view parts.old.items ++ part path.now (value_view value.now) ∷ []) }
{
    let path = Vec::from_slice(alloc, path)?;
    parts.push(Part { path, value })?;
    Ok(())
}

/// Appends the parts of `value`, which is at the path `path`, but not `value` itself. `path` is
/// restored unless this fails.
#[cycle(parts)]
fn push_below<'v, 'a>(
    alloc: Global,
    path: &mut Vec<u8>,
    parts: &mut Vec<Part<'v, 'a>>,
    value: &'v Value<'a>,
) -> Result<(), AllocError>
    ensures parts { OnOk result (map part_view parts.new.items
        ≡ map part_view parts.old.items
        ++ parts_below path.old.items (value_view value.now)) }
    ensures path { OnOk result (path.new.items ≡ path.old.items) }
{
    match value {
        Value::Array(items) => push_items(alloc, path, parts, items),
        Value::Object(members) => push_members(alloc, path, parts, members),
        _ => Ok(()),
    }
}

/// Appends each item of an array at the path `path`, followed by the parts of the item. `path` is
/// restored unless this fails.
#[cycle(parts)]
fn push_items<'v, 'a>(
    alloc: Global,
    path: &mut Vec<u8>,
    parts: &mut Vec<Part<'v, 'a>>,
    items: &'v Vec<Value<'a>>,
) -> Result<(), AllocError>
    ensures parts { OnOk result (map part_view parts.new.items
        ≡ map part_view parts.old.items
        ++ item_parts (item_path path.old.items) (items_view items.now.items)) }
    ensures path { OnOk result (path.new.items ≡ path.old.items) }
{
    let end = path.len();
    push_any_item(path)?;
    for item in items {
        push_part(alloc, path, parts, item)?;
        push_below(alloc, path, parts, item)?;
    }
    path.truncate(end);
    Ok(())
}

/// Appends the value of each member of an object at the path `path`, followed by the parts of this
/// value. `path` is restored unless this fails.
#[cycle(parts)]
fn push_members<'v, 'a>(
    alloc: Global,
    path: &mut Vec<u8>,
    parts: &mut Vec<Part<'v, 'a>>,
    members: &'v Vec<(&'a str, Value<'a>)>,
) -> Result<(), AllocError>
    ensures parts { OnOk result (map part_view parts.new.items
        ≡ map part_view parts.old.items
        ++ member_parts path.old.items (members_view members.now.items)) }
    ensures path { OnOk result (path.new.items ≡ path.old.items) }
{
    for member in members {
        let end = path.len();
        push_name(alloc, path, member.0)?;
        push_part(alloc, path, parts, &member.1)?;
        push_below(alloc, path, parts, &member.1)?;
        path.truncate(end);
    }
    Ok(())
}

/// Returns the parts of a value: each member and item, followed by its own parts. The order is that
/// of the JSON text. For example, the parts of `{"a": [7]}` are the array at `a` and 7 at `a[]`.
pub fn parts_of<'v, 'a>(
    alloc: Global,
    value: &'v Value<'a>,
) -> Result<Vec<Part<'v, 'a>>, AllocError>
    ensures { IfOk result
        (λ parts. map part_view parts.items ≡ parts_below [] (value_view value.now)) }
{
    let mut path = Vec::new(alloc);
    let mut parts = Vec::new(alloc);
    push_below(alloc, &mut path, &mut parts, value)?;
    Ok(parts)
}
