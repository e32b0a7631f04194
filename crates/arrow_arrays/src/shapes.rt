//! Shapes: the arrays of parts, without their child arrays.
#![tactic(auto, using(crate::proofs::Fitting::fitting))]

ghost use Rattle.std.specs.Prelude.{IfErr, IfOk};
ghost use Rattle.arrow_arrays.specs.Good.{GoodKind, GoodLists, GoodRows};
ghost use Rattle.arrow_arrays.specs.Shapes.{FitsKind, FitsLists, FitsPart, IsHonestOver};
ghost use Rattle.arrow_parts.specs.Kinds.{kind_number};
ghost use Rattle.arrow_parts.specs.Lent.{places_from};
ghost use Rattle.arrow_parts.specs.declared.part.PartKind.TheVariants as kinds;

use crate::ends::LentOffset;
use crate::slots::{ends, numbers, present, sized_strings, strings, texts, truths};
use crate::views::{viewed_strings, viewed_texts};
use crate::wide::{signed_numbers, unsigned_numbers};
use arrow_parts::part::{Part, PartKind};
use arrow_parts::refused::Refused;
use polars_arrays_bits::bitmap::Bitmap;
use polars_arrays_flat::null::NullArray;
use polars_arrays_nested::any_array::AnyArray;
use polars_arrays_nested::dict_keys::DictKeys;
use polars_arrays_nested::list_offsets::ListOffsets;
use std::alloc::Global;

// Makes the shape of an array without children, which is the variant `$kind` of `AnyArray`. If
// `$array` is an error, gives this error.
macro_rules! leaf {
    ($kind:ident, $array:expr) => {
        match $array {
            Ok(array) => Ok(Shape::Leaf(AnyArray::$kind(array))),
            Err(reason) => Err(reason),
        }
    };
}

// Makes the shape of a dictionary with keys of the variant `$kind` of `DictKeys`. If `$keys` is an
// error, gives this error.
macro_rules! entries {
    ($kind:ident, $keys:expr) => {
        match $keys {
            Ok(keys) => Ok(Shape::Entries(DictKeys::$kind(keys))),
            Err(reason) => Err(reason),
        }
    };
}

/// The size of an array of lists of a fixed size. `width` is the number of items of each list, and
/// `rows` is the number of lists.
#[derive(Clone, Copy)]
pub struct Size {
    pub width: usize,
    pub rows: usize,
}

/// An array without its child arrays, which `fill` adds.
#[derive(Drop)]
pub enum Shape {
    /// An array without children.
    Leaf(AnyArray),
    /// The offsets and the validity of a list array.
    Lists(ListOffsets, Option<Bitmap>),
    /// The size and the validity of an array of lists of a fixed size.
    FixedLists(Size, Option<Bitmap>),
    /// The number of rows and the validity of a struct array.
    Structs(usize, Option<Bitmap>),
    /// The keys of a dictionary array.
    Entries(DictKeys),
}

/// Returns the shape of a part that is a list array with the offsets `offsets`. Fails with `Parts`
/// if there isn't one offset more than rows, if an offset is less than `part.base`, or if there are
/// fewer validity bits than rows. Fails with `Memory` if an allocation fails. Offsets that decrease
/// or lie past the items are found by `fill`.
fn lists<O: LentOffset>(alloc: Global, part: &Part<'_>, offsets: &[O]) -> Result<Shape, Refused>
    ensures made { IfOk result
        (FitsLists (places_from part.now.base O.value offsets.now) part.now) }
    ensures refused { IfErr result
        (IsHonestOver (GoodLists (places_from part.now.base O.value offsets.now) part.now)) }
{
    let validity = present(alloc, part)?;
    let ends = ends(alloc, part, offsets)?;
    Ok(Shape::Lists(ListOffsets::Large(ends), validity))
}

/// Returns the shape of a part that is an array of lists of a fixed size. Fails with `Parts` if
/// there are fewer validity bits than rows, and with `Memory` if an allocation fails.
fn fixed_lists(alloc: Global, part: &Part<'_>) -> Result<Shape, Refused>
    ensures made { IfOk result (FitsKind kinds.FixedSizeList part.now) }
    ensures refused { IfErr result (IsHonestOver (GoodKind kinds.FixedSizeList part.now)) }
{
    let validity = present(alloc, part)?;
    let size = Size {
        width: part.width,
        rows: part.rows,
    };
    Ok(Shape::FixedLists(size, validity))
}

/// Returns the shape of a part that is a struct array. Fails with `Parts` if there are fewer
/// validity bits than rows, and with `Memory` if an allocation fails.
fn structs(alloc: Global, part: &Part<'_>) -> Result<Shape, Refused>
    ensures made { IfOk result (FitsKind kinds.Struct part.now) }
    ensures refused { IfErr result (IsHonestOver (GoodKind kinds.Struct part.now)) }
{
    let validity = present(alloc, part)?;
    Ok(Shape::Structs(part.rows, validity))
}

/// Returns the shape of a part, read as an array of kind `kind`. Offsets of 32 bits and views are
/// converted to offsets of 64 bits. Fails with `Parts` if the part makes no array, whatever its
/// child arrays are, and with `Memory` if an allocation fails.
fn shape_of_kind(alloc: Global, kind: PartKind, part: &Part<'_>) -> Result<Shape, Refused>
    ensures made { IfOk result (FitsKind kind part.now) }
    ensures refused { IfErr result (IsHonestOver (GoodKind kind part.now)) }
{
    match kind {
        PartKind::Null => Ok(Shape::Leaf(AnyArray::Null(NullArray::new(part.rows)))),
        PartKind::Boolean => leaf!(Boolean, truths(alloc, part)),
        PartKind::Int8 => leaf!(Int8, numbers(alloc, part, part.i8s)),
        PartKind::Int16 => leaf!(Int16, numbers(alloc, part, part.i16s)),
        PartKind::Int32 => leaf!(Int32, numbers(alloc, part, part.i32s)),
        PartKind::Int64 => leaf!(Int64, numbers(alloc, part, part.i64s)),
        PartKind::Int128 => leaf!(Int128, signed_numbers(alloc, part)),
        PartKind::UInt8 => leaf!(UInt8, numbers(alloc, part, part.u8s)),
        PartKind::UInt16 => leaf!(UInt16, numbers(alloc, part, part.u16s)),
        PartKind::UInt32 => leaf!(UInt32, numbers(alloc, part, part.u32s)),
        PartKind::UInt64 => leaf!(UInt64, numbers(alloc, part, part.u64s)),
        PartKind::UInt128 => leaf!(UInt128, unsigned_numbers(alloc, part)),
        PartKind::Binary => leaf!(LargeBinary, strings(alloc, part, part.i32s)),
        PartKind::LargeBinary => leaf!(LargeBinary, strings(alloc, part, part.i64s)),
        PartKind::Utf8 => leaf!(LargeUtf8, texts(alloc, part, part.i32s)),
        PartKind::LargeUtf8 => leaf!(LargeUtf8, texts(alloc, part, part.i64s)),
        PartKind::FixedSizeBinary => leaf!(FixedSizeBinary, sized_strings(alloc, part)),
        PartKind::BinaryView => leaf!(LargeBinary, viewed_strings(alloc, part)),
        PartKind::Utf8View => leaf!(LargeUtf8, viewed_texts(alloc, part)),
        PartKind::List => lists(alloc, part, part.i32s),
        PartKind::LargeList => lists(alloc, part, part.i64s),
        PartKind::FixedSizeList => fixed_lists(alloc, part),
        PartKind::Struct => structs(alloc, part),
        PartKind::DictInt8 => entries!(Int8, numbers(alloc, part, part.i8s)),
        PartKind::DictInt16 => entries!(Int16, numbers(alloc, part, part.i16s)),
        PartKind::DictInt32 => entries!(Int32, numbers(alloc, part, part.i32s)),
        PartKind::DictInt64 => entries!(Int64, numbers(alloc, part, part.i64s)),
        PartKind::DictUInt8 => entries!(UInt8, numbers(alloc, part, part.u8s)),
        PartKind::DictUInt16 => entries!(UInt16, numbers(alloc, part, part.u16s)),
        PartKind::DictUInt32 => entries!(UInt32, numbers(alloc, part, part.u32s)),
        PartKind::DictUInt64 => entries!(UInt64, numbers(alloc, part, part.u64s)),
    }
}

/// Returns the shape of a part. Fails with `Parts` if the kind is unknown, or if the part makes no
/// array, whatever its child arrays are. Fails with `Memory` if an allocation fails.
pub fn shape_of(alloc: Global, part: &Part<'_>) -> Result<Shape, Refused>
    ensures made { IfOk result (FitsPart part.now) }
    ensures refused { IfErr result (IsHonestOver (GoodRows (kind_number part.now.kind) part.now)) }
{
    match PartKind::of(part.kind) {
        Some(kind) => shape_of_kind(alloc, kind, part),
        None => Err(Refused::Parts),
    }
}
