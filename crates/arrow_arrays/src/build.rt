//! Builds an array, with all arrays inside it, from the parts of a lent array.
#![tactic(auto, using(crate::proofs::Stacks::stacks))]

ghost use Rattle.std.specs.Prelude.{◌≡◌, ◌≤◌, ◌+◌, ◌++◌, ◌∷◌, [], List, IfErr, IfOk, OnOk, length};
ghost use Rattle.std.specs.Prelude.{map, reverse, string_bytes};
ghost use Rattle.std.specs.Str.{IsUtf8};
ghost use Rattle.arrow_arrays.specs.Columns.{Column, rows_of_parts};
ghost use Rattle.arrow_arrays.specs.Good.{AllGood, AreGoodParts, GoodRows};
ghost use Rattle.arrow_arrays.specs.Shapes.{IsHonestOver};
ghost use Rattle.arrow_arrays.specs.Stacks.{AllFit, AreTaken, IsRefusedStep, IsStep, Stacks};
ghost use Rattle.arrow_arrays.specs.Stacks.{WasGood};
ghost use Rattle.arrow_arrays.specs.Stands.{AllStand, AreTyped, Stands, field_names};
ghost use Rattle.arrow_parts.specs.Kinds.{kind_number};
ghost use Rattle.arrow_parts.specs.Refusals.{IsHonest, IsMemoryFailure};
ghost use Rattle.arrow_parts.specs.declared.part.Part.{Part};

use crate::nested::{Inside, fill, only_one};
use crate::shapes::{Shape, shape_of};
use arrow_parts::part::Part;
use arrow_parts::refused::Refused;
use polars_arrays_flat::data_type::Field;
use polars_arrays_nested::any_array::AnyArray;
use std::alloc::Global;

/// Returns a copy of the name of a part. Fails with `Parts` if the name is not UTF-8, and with
/// `Memory` if an allocation fails.
fn name_of(alloc: Global, part: &Part<'_>) -> Result<String, Refused>
    ensures text { IfOk result (λ _. IsUtf8 part.now.name.now) }
    ensures name { IfOk result (λ name. string_bytes name ≡ part.now.name.now) }
    ensures refused { IfErr result (IsHonest (IsUtf8 part.now.name.now)) }
{
    match std::str::from_utf8(part.name) {
        Ok(text) => Ok(String::from_str(alloc, text)?),
        Err(_) => Err(Refused::Parts),
    }
}

/// Pushes the name of a part onto the stack `names`. Fails as `name_of` does.
fn put_name(alloc: Global, part: &Part<'_>, names: &mut Vec<String>) -> Result<(), Refused>
    ensures text { OnOk result (IsUtf8 part.now.name.now) }
    ensures longer { OnOk result (length names.new.items ≡ length names.old.items + 1) }
    ensures put { OnOk result (map string_bytes names.new.items
        ≡ map string_bytes names.old.items ++ part.now.name.now ∷ []) }
    ensures refused { IfErr result (IsHonest (IsUtf8 part.now.name.now)) }
{
    let name = name_of(alloc, part)?;
    names.push(name)?;
    Ok(())
}

/// Pops `count` arrays from `stack`, and returns them, the topmost first. Fails with `Parts` if the
/// stack has fewer, and with `Memory` if an allocation fails.
fn take_columns(
    alloc: Global,
    count: usize,
    stack: &mut Vec<AnyArray>,
) -> Result<Vec<AnyArray>, Refused>
    ensures taken { IfOk result
        (λ taken. AreTaken count taken.items stack.old.items stack.new.items) }
    ensures refused { IfErr result (IsHonest (count ≤ length stack.old.items)) }
{
    if stack.len() < count {
        return Err(Refused::Parts);
    }
    let mut columns = Vec::with_capacity(alloc, count)?;
    for _taken in 0..count {
        match stack.pop() {
            Some(array) => columns.push_reserved(array),
            None => return Err(Refused::Parts),
        }
    }
    Ok(columns)
}

/// Pops a name for each column from the stack `names`, the topmost for the first column. Returns a
/// field with the name and the type of each column. The only error is `Memory`.
fn take_fields(
    alloc: Global,
    columns: &[AnyArray],
    names: &mut Vec<String>,
) -> Result<Vec<Field>, Refused>
    requires { length columns.now ≤ length names.old.items }
    ensures typed { IfOk result (λ fields. AreTyped fields.items columns.now) }
    ensures named { IfOk result (λ fields. AreTaken (length columns.now) (field_names fields.items)
        (map string_bytes names.old.items) (map string_bytes names.new.items)) }
    ensures left { OnOk result
        (length names.old.items ≡ length columns.now + length names.new.items) }
    ensures refused { IfErr result IsMemoryFailure }
{
    let mut fields = Vec::with_capacity(alloc, columns.len())?;
    for i in 0..columns.len() {
        let Some(name) = names.pop() else {
            return Err(Refused::Parts);
        };
        let dtype = columns[i].dtype(alloc)?;
        fields.push(Field { name, dtype })?;
    }
    Ok(fields)
}

/// Pops `count` child arrays from `stack`, and `count` names from `names`. Returns the arrays, the
/// topmost first, with their names and types. Fails with `Parts` if `stack` has fewer arrays, and
/// with `Memory` if an allocation fails.
fn take_inside(
    alloc: Global,
    count: usize,
    stack: &mut Vec<AnyArray>,
    names: &mut Vec<String>,
) -> Result<Inside, Refused>
    requires { length stack.old.items ≤ length names.old.items }
    ensures taken { IfOk result
        (λ t. AreTaken count t.columns.items stack.old.items stack.new.items) }
    ensures typed { IfOk result (λ t. AreTyped t.fields.items t.columns.items) }
    ensures named { IfOk result (λ t. AreTaken count (field_names t.fields.items)
        (map string_bytes names.old.items) (map string_bytes names.new.items)) }
    ensures left { OnOk result (length names.old.items ≡ count + length names.new.items) }
    ensures refused { IfErr result (IsHonest (count ≤ length stack.old.items)) }
{
    let columns = take_columns(alloc, count, stack)?;
    let fields = take_fields(alloc, &columns, names)?;
    Ok(Inside { fields, columns })
}

/// Removes the last shape, and returns it. Fails with `Parts` if there is none.
fn take_shape(shapes: &mut Vec<Shape>) -> Result<Shape, Refused>
    ensures taken { IfOk result (λ s. shapes.old.items ≡ shapes.new.items ++ s ∷ []) }
    ensures none { IfErr result (λ _. length shapes.old.items ≡ 0) }
{
    match shapes.pop() {
        Some(shape) => Ok(shape),
        None => Err(Refused::Parts),
    }
}

/// Pops a shape from `shapes`, `count` child arrays from `stack`, and their names from `names`.
/// Returns the array that has this shape and these child arrays. Fails with `Parts` if there is no
/// shape, if `stack` has fewer arrays, or if the child arrays do not fit the shape. Fails with
/// `Memory` if an allocation fails.
fn filled(
    alloc: Global,
    count: usize,
    shapes: &mut Vec<Shape>,
    stack: &mut Vec<AnyArray>,
    names: &mut Vec<String>,
) -> Result<AnyArray, Refused>
    requires shapes { (ps : List Part) × AllFit ps shapes.old.items }
    requires stack { (cs : List Column) × AllStand (reverse stack.old.items) cs }
    requires names { length stack.old.items ≤ length names.old.items }
    ensures made { IfOk result
        (IsStep count shapes.old.items shapes.new.items stack.old.items stack.new.items
        (map string_bytes names.old.items) (map string_bytes names.new.items)) }
    ensures good { OnOk result (WasGood count shapes.old.items stack.old.items) }
    ensures left { OnOk result (length names.old.items ≡ count + length names.new.items) }
    ensures taken { OnOk result (length stack.old.items ≡ count + length stack.new.items) }
    ensures refused { IfErr result (IsRefusedStep count shapes.old.items stack.old.items) }
{
    let inside = take_inside(alloc, count, stack, names)?;
    let shape = take_shape(shapes)?;
    let array = fill(alloc, shape, inside)?;
    Ok(array)
}

/// Pops a shape from `shapes`, `count` child arrays from `stack`, and their names from `names`.
/// Pushes the array that has this shape and these child arrays onto `stack`. Fails as `filled`
/// does.
fn step(
    alloc: Global,
    count: usize,
    shapes: &mut Vec<Shape>,
    stack: &mut Vec<AnyArray>,
    names: &mut Vec<String>,
) -> Result<(), Refused>
    requires shapes { (ps : List Part) × AllFit ps shapes.old.items }
    requires stack { (cs : List Column) × AllStand (reverse stack.old.items) cs }
    requires names { length stack.old.items ≤ length names.old.items }
    ensures made { OnOk result
        (Stacks count shapes.old.items shapes.new.items stack.old.items stack.new.items
        (map string_bytes names.old.items) (map string_bytes names.new.items)) }
    ensures good { OnOk result (WasGood count shapes.old.items stack.old.items) }
    ensures left { OnOk result (length names.old.items ≡ count + length names.new.items) }
    ensures taken { OnOk result (length stack.old.items + 1 ≡ count + length stack.new.items) }
    ensures refused { IfErr result (IsRefusedStep count shapes.old.items stack.old.items) }
{
    let array = filled(alloc, count, shapes, stack, names)?;
    stack.push(array)?;
    Ok(())
}

/// Appends the shape of a part to `shapes`. Fails with `Parts` if the part makes no array, whatever
/// its child arrays are, and with `Memory` if an allocation fails.
fn put_shape(alloc: Global, part: &Part<'_>, shapes: &mut Vec<Shape>) -> Result<(), Refused>
    ensures put { OnOk result
        ((ps : List Part) → AllFit ps shapes.old.items
        → AllFit (ps ++ part.now ∷ []) shapes.new.items) }
    ensures refused { IfErr result (IsHonestOver (GoodRows (kind_number part.now.kind) part.now)) }
{
    let shape = shape_of(alloc, part)?;
    shapes.push(shape)?;
    Ok(())
}

/// Returns the shape of each part, in order. Fails with `Parts` if one of the parts makes no array,
/// whatever its child arrays are, and with `Memory` if an allocation fails.
fn shapes_of(alloc: Global, parts: &[Part<'_>]) -> Result<Vec<Shape>, Refused>
    ensures fit { IfOk result (λ shapes. AllFit parts.now shapes.items) }
    ensures refused { IfErr result (IsHonest (AllGood parts.now)) }
{
    let mut shapes = Vec::with_capacity(alloc, parts.len())?;
    for i in 0..parts.len() {
        put_shape(alloc, &parts[i], &mut shapes)?;
    }
    Ok(shapes)
}

/// Builds the array that parts in pre-order describe. The array copies all data, so it doesn't
/// borrow from the parts.
///
/// Fails with `Parts` only if the parts make no array, and with `Memory` if an allocation fails. A
/// text that is given by offsets has to be UTF-8 even in a null row. The keys and views of null
/// rows may be arbitrary.
pub fn build(alloc: Global, parts: &[Part<'_>]) -> Result<AnyArray, Refused>
    ensures stands { IfOk result (λ a. Stands a (rows_of_parts parts.now)) }
    ensures good { IfOk result (λ _. AreGoodParts parts.now) }
    ensures refused { IfErr result (IsHonest (AreGoodParts parts.now)) }
{
    let mut shapes = shapes_of(alloc, parts)?;
    let mut stack: Vec<AnyArray> = Vec::new(alloc);
    let mut names: Vec<String> = Vec::new(alloc);
    let count = parts.len();
    // The parts are visited from last to first, so that child arrays are built before their parent.
    for i in 0..count {
        let part = &parts[count - 1 - i];
        step(
            alloc,
            part.children as usize,
            &mut shapes,
            &mut stack,
            &mut names,
        )?;
        put_name(alloc, part, &mut names)?;
    }
    let array = only_one(stack)?;
    Ok(array)
}
