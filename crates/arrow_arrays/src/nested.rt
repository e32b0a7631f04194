//! Builds nested arrays: puts child arrays into a `Shape`, which is an array without its children.
#![tactic(auto, using(crate::proofs::Standing::filling))]

ghost use Rattle.std.specs.Prelude.{◌≡◌, ◌∷◌, [], length, IfErr, IfOk};
ghost use Rattle.std.specs.List.{All};
ghost use Rattle.polars_arrays_nested.specs.GoodParts.{IsGood};
ghost use Rattle.arrow_arrays.specs.Shapes.{GoodShape};
ghost use Rattle.arrow_arrays.specs.Stands.{AreTyped, CanFillOne, CanFillWith, Fills, FillsOne};
ghost use Rattle.arrow_arrays.specs.Stands.{IsHonestFill, IsHonestOne};
ghost use Rattle.arrow_parts.specs.Refusals.{IsHonest};
ghost use Rattle.arrow_arrays.specs.declared.shapes.Shape.TheVariants.{Lists, FixedLists, Structs};
ghost use Rattle.arrow_arrays.specs.declared.shapes.Shape.TheVariants.{Entries};

use crate::shapes::{Shape, Size};
use arrow_parts::refused::Refused;
use polars_arrays_bits::bitmap::Bitmap;
use polars_arrays_flat::data_type::Field;
use polars_arrays_nested::any_array::AnyArray;
use polars_arrays_nested::dict_keys::DictKeys;
use polars_arrays_nested::dictionary::DictionaryArray;
use polars_arrays_nested::fixed_size_list::FixedSizeListArray;
use polars_arrays_nested::list::ListArray;
use polars_arrays_nested::list_offsets::ListOffsets;
use polars_arrays_nested::struct_array::StructArray;
use std::alloc::Global;

/// The child arrays of an array. `fields` has the name and type of each of `columns`.
#[derive(Drop)]
pub struct Inside {
    pub fields: Vec<Field>,
    pub columns: Vec<AnyArray>,
}

/// Returns the only array of a vector. Fails with `Parts` unless there is exactly one.
pub fn only_one(columns: Vec<AnyArray>) -> Result<AnyArray, Refused>
    ensures one { IfOk result (λ a. columns.items ≡ a ∷ []) }
    ensures refused { IfErr result (IsHonest (length columns.items ≡ 1)) }
{
    let mut columns = columns;
    if columns.len() != 1 {
        return Err(Refused::Parts);
    }
    match columns.pop() {
        Some(items) => Ok(items),
        None => Err(Refused::Parts),
    }
}

/// Builds a list array with the child array `items`. Fails with `Parts` if there is no offset, if
/// an offset is less than the one before it or greater than the number of items, or if `validity`
/// does not have one bit for each list. Fails with `Memory` if an allocation fails.
fn lists(
    alloc: Global,
    offsets: ListOffsets,
    validity: Option<Bitmap>,
    items: AnyArray,
) -> Result<AnyArray, Refused>
    requires { IsGood items }
    ensures made { IfOk result (FillsOne (Lists offsets validity) items) }
    ensures can { IfOk result (λ _. CanFillOne (Lists offsets validity) items) }
    ensures refused { IfErr result (IsHonestOne (Lists offsets validity) items) }
{
    let items = Box::new(alloc, items)?;
    let array = ListArray::try_new(offsets, items, validity)?;
    Ok(AnyArray::List(array))
}

/// Builds an array of `size.rows` lists of `size.width` items each, with the child array `items`.
/// Fails with `Parts` if the number of items is not `size.width * size.rows`, or if `validity` does
/// not have one bit for each list. Fails with `Memory` if an allocation fails.
fn fixed_lists(
    alloc: Global,
    size: Size,
    validity: Option<Bitmap>,
    items: AnyArray,
) -> Result<AnyArray, Refused>
    requires { IsGood items }
    ensures made { IfOk result (FillsOne (FixedLists size validity) items) }
    ensures can { IfOk result (λ _. CanFillOne (FixedLists size validity) items) }
    ensures refused { IfErr result (IsHonestOne (FixedLists size validity) items) }
{
    let items = Box::new(alloc, items)?;
    let array = FixedSizeListArray::try_new(size.width, size.rows, items, validity)?;
    Ok(AnyArray::FixedSizeList(array))
}

/// Builds a dictionary array with the keys `keys` and the entries `items`. Fails with `Parts` if
/// the key of a present row is not the index of an entry, and with `Memory` if an allocation fails.
fn entries(alloc: Global, keys: DictKeys, items: AnyArray) -> Result<AnyArray, Refused>
    requires { IsGood items }
    ensures made { IfOk result (FillsOne (Entries keys) items) }
    ensures can { IfOk result (λ _. CanFillOne (Entries keys) items) }
    ensures refused { IfErr result (IsHonestOne (Entries keys) items) }
{
    let items = Box::new(alloc, items)?;
    let array = DictionaryArray::try_new(keys, items)?;
    Ok(AnyArray::Dictionary(array))
}

/// Builds a struct array with `rows` rows and the child arrays `inside`. The only error is `Parts`,
/// if a child array does not have `rows` rows, or `validity` does not have one bit for each row.
fn structs(rows: usize, validity: Option<Bitmap>, inside: Inside) -> Result<AnyArray, Refused>
    requires good { All IsGood inside.columns.items }
    requires typed { AreTyped inside.fields.items inside.columns.items }
    ensures made { IfOk result
        (Fills (Structs rows validity) inside.fields.items inside.columns.items) }
    ensures can { IfOk result (λ _. CanFillWith (Structs rows validity) inside.columns.items) }
    ensures refused { IfErr result (IsHonestFill (Structs rows validity) inside.columns.items) }
{
    let Inside { fields, columns } = inside;
    let array = StructArray::try_new(fields, rows, columns, validity)?;
    Ok(AnyArray::Struct(array))
}

/// Builds a list array whose items are the only child array. Fails with `Parts` if there isn't
/// exactly one, and as `lists` does.
fn listed(
    alloc: Global,
    offsets: ListOffsets,
    validity: Option<Bitmap>,
    inside: Inside,
) -> Result<AnyArray, Refused>
    requires { All IsGood inside.columns.items }
    ensures made { IfOk result
        (Fills (Lists offsets validity) inside.fields.items inside.columns.items) }
    ensures can { IfOk result (λ _. CanFillWith (Lists offsets validity) inside.columns.items) }
    ensures refused { IfErr result (IsHonestFill (Lists offsets validity) inside.columns.items) }
{
    let items = only_one(inside.columns)?;
    let array = lists(alloc, offsets, validity, items)?;
    Ok(array)
}

/// Builds an array of lists of a fixed size, whose items are the only child array. Fails with
/// `Parts` if there isn't exactly one, and as `fixed_lists` does.
fn fixed_listed(
    alloc: Global,
    size: Size,
    validity: Option<Bitmap>,
    inside: Inside,
) -> Result<AnyArray, Refused>
    requires { All IsGood inside.columns.items }
    ensures made { IfOk result
        (Fills (FixedLists size validity) inside.fields.items inside.columns.items) }
    ensures can { IfOk result (λ _. CanFillWith (FixedLists size validity) inside.columns.items) }
    ensures refused { IfErr result (IsHonestFill (FixedLists size validity) inside.columns.items) }
{
    let items = only_one(inside.columns)?;
    let array = fixed_lists(alloc, size, validity, items)?;
    Ok(array)
}

/// Builds a dictionary array whose entries are the only child array. Fails with `Parts` if there
/// isn't exactly one, and as `entries` does.
fn entered(alloc: Global, keys: DictKeys, inside: Inside) -> Result<AnyArray, Refused>
    requires { All IsGood inside.columns.items }
    ensures made { IfOk result (Fills (Entries keys) inside.fields.items inside.columns.items) }
    ensures can { IfOk result (λ _. CanFillWith (Entries keys) inside.columns.items) }
    ensures refused { IfErr result (IsHonestFill (Entries keys) inside.columns.items) }
{
    let items = only_one(inside.columns)?;
    let array = entries(alloc, keys, items)?;
    Ok(array)
}

/// Builds the array that has the shape `shape` and the child arrays `inside`. If the shape is a
/// leaf, returns its array unchanged, and ignores the child arrays. Fails with `Parts` if the child
/// arrays do not fit the shape, and with `Memory` if an allocation fails.
pub fn fill(alloc: Global, shape: Shape, inside: Inside) -> Result<AnyArray, Refused>
    requires columns { All IsGood inside.columns.items }
    requires typed { AreTyped inside.fields.items inside.columns.items }
    requires shape { GoodShape shape }
    ensures made { IfOk result (Fills shape inside.fields.items inside.columns.items) }
    ensures can { IfOk result (λ _. CanFillWith shape inside.columns.items) }
    ensures refused { IfErr result (IsHonestFill shape inside.columns.items) }
{
    match shape {
        Shape::Leaf(array) => Ok(array),
        Shape::Lists(offsets, validity) => listed(alloc, offsets, validity, inside),
        Shape::FixedLists(size, validity) => fixed_listed(alloc, size, validity, inside),
        Shape::Structs(rows, validity) => structs(rows, validity, inside),
        Shape::Entries(keys) => entered(alloc, keys, inside),
    }
}
