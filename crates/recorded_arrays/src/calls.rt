//! The calls of this crate, and their names.

use crate::types::{NamedComparison, Strings};
use crate::{
    arrays, byte_strings, lent, null_rows, number_arrays, number_types, string_arrays, views,
};
use recorded_text::names::find;

/// A call of this crate, without the arguments, which are read from words.
#[derive(Clone, Copy)]
pub enum Call {
    /// A call on one array. The next word names the array.
    One(OfOne),
    /// A call on two arrays. The next two words name the arrays.
    Two(OfTwo),
    /// A call of `StructArray::try_new`.
    StructOfParts,
    /// A call on a type of numbers. The next word names the type.
    NumberType(number_types::Asked),
    /// The type of an array of byte strings, or of texts. The next word names the type of the
    /// offsets.
    StringsType(Strings),
    /// A comparison of two byte strings. The next two words are the byte strings.
    Bytes(byte_strings::ByteTest),
    /// A call of `pair_less`, which compares two pairs of numbers.
    PairLess,
    /// A call on a view. The next word has the bytes of the view.
    View(views::Asked),
    /// A call of `View::of_short` on the byte string of the next word.
    ViewOfShort,
}

/// A call on one array. `Type` returns the type of the array, and `TypeCopy` a clone of the type.
/// Each other variant holds a call of one module.
#[derive(Clone, Copy)]
pub enum OfOne {
    Array(arrays::Asked),
    Lent(lent::Asked),
    NullRows(null_rows::Asked),
    Numbers(number_arrays::Asked),
    Strings(string_arrays::Asked),
    Type,
    TypeCopy,
}

/// A call on two arrays. `Leaves` returns the numbers of leaf slots, and `Types` compares the
/// types.
#[derive(Clone, Copy)]
pub enum OfTwo {
    Leaves,
    Types(NamedComparison),
}

impl Call {
    /// Returns the call named `name`, or `None` if this crate has no such call.
    pub fn named(name: &str) -> Option<Call> {
        find(&CALLS, name)
    }
}

// The names of all calls, each with the call.
const CALLS: [(&str, Call); 66] = [
    ("rows", Call::One(OfOne::Array(arrays::Asked::Rows))),
    ("copy", Call::One(OfOne::Array(arrays::Asked::Copy))),
    ("array_slice", Call::One(OfOne::Array(arrays::Asked::Slice))),
    ("leaves", Call::Two(OfTwo::Leaves)),
    ("array_len", Call::One(OfOne::Lent(lent::Asked::Len))),
    ("null_count", Call::One(OfOne::Lent(lent::Asked::NullCount))),
    ("validity", Call::One(OfOne::Lent(lent::Asked::Validity))),
    ("values", Call::One(OfOne::Lent(lent::Asked::Values))),
    ("offsets", Call::One(OfOne::Lent(lent::Asked::Offsets))),
    ("views", Call::One(OfOne::Lent(lent::Asked::Views))),
    (
        "array_buffers",
        Call::One(OfOne::Lent(lent::Asked::Buffers)),
    ),
    ("keys", Call::One(OfOne::Lent(lent::Asked::Keys))),
    ("key_value", Call::One(OfOne::Lent(lent::Asked::KeyValue))),
    ("column", Call::One(OfOne::Lent(lent::Asked::Column))),
    ("array_count", Call::One(OfOne::Lent(lent::Asked::Count))),
    ("width", Call::One(OfOne::Lent(lent::Asked::Width))),
    ("size", Call::One(OfOne::Lent(lent::Asked::Size))),
    (
        "is_null_row",
        Call::One(OfOne::NullRows(null_rows::Asked::IsNullRow)),
    ),
    (
        "dictionary_is_null_row",
        Call::One(OfOne::NullRows(null_rows::Asked::IsNullKey)),
    ),
    (
        "may_have_nulls",
        Call::One(OfOne::NullRows(null_rows::Asked::MayHaveNulls)),
    ),
    (
        "missing_mask",
        Call::One(OfOne::NullRows(null_rows::Asked::MissingMask)),
    ),
    (
        "array_missing_mask",
        Call::One(OfOne::NullRows(null_rows::Asked::MaskOfKind)),
    ),
    (
        "window_mask",
        Call::One(OfOne::NullRows(null_rows::Asked::WindowMask)),
    ),
    (
        "array_is_owned",
        Call::One(OfOne::Numbers(number_arrays::Asked::IsOwned)),
    ),
    (
        "array_share",
        Call::One(OfOne::Numbers(number_arrays::Asked::Share)),
    ),
    (
        "take_validity",
        Call::One(OfOne::Numbers(number_arrays::Asked::TakeValidity)),
    ),
    (
        "with_validity",
        Call::One(OfOne::Numbers(number_arrays::Asked::WithValidity)),
    ),
    (
        "fill_with",
        Call::One(OfOne::Numbers(number_arrays::Asked::FillWith)),
    ),
    (
        "get_mut_values",
        Call::One(OfOne::Numbers(number_arrays::Asked::GetMutValues)),
    ),
    (
        "as_mut_values",
        Call::One(OfOne::Numbers(number_arrays::Asked::AsMutValues)),
    ),
    ("from_vec", Call::NumberType(number_types::Asked::FromVec)),
    ("full_null", Call::NumberType(number_types::Asked::FullNull)),
    (
        "arrow_data_type",
        Call::NumberType(number_types::Asked::DataType),
    ),
    (
        "bytes",
        Call::One(OfOne::Strings(string_arrays::Asked::Bytes)),
    ),
    (
        "value",
        Call::One(OfOne::Strings(string_arrays::Asked::Value)),
    ),
    (
        "of_size",
        Call::One(OfOne::Strings(string_arrays::Asked::OfSize)),
    ),
    (
        "as_binary",
        Call::One(OfOne::Strings(string_arrays::Asked::AsBinary)),
    ),
    (
        "as_binview",
        Call::One(OfOne::Strings(string_arrays::Asked::AsBinview)),
    ),
    ("bytes_equal", Call::Bytes(byte_strings::ByteTest::Equal)),
    ("bytes_less", Call::Bytes(byte_strings::ByteTest::Less)),
    ("pair_less", Call::PairLess),
    ("struct_try_new", Call::StructOfParts),
    ("dtype", Call::One(OfOne::Type)),
    ("clone_type", Call::One(OfOne::TypeCopy)),
    ("binary_data_type", Call::StringsType(Strings::Bytes)),
    ("text_data_type", Call::StringsType(Strings::Texts)),
    (
        "same_type",
        Call::Two(OfTwo::Types(NamedComparison::SameType)),
    ),
    (
        "has_type",
        Call::Two(OfTwo::Types(NamedComparison::HasType)),
    ),
    (
        "same_kind",
        Call::Two(OfTwo::Types(NamedComparison::SameKind)),
    ),
    ("type_eq", Call::Two(OfTwo::Types(NamedComparison::Equal))),
    (
        "same_fields",
        Call::Two(OfTwo::Types(NamedComparison::SameFields)),
    ),
    (
        "is_struct_of",
        Call::Two(OfTwo::Types(NamedComparison::StructOf)),
    ),
    (
        "same_field",
        Call::Two(OfTwo::Types(NamedComparison::SameField)),
    ),
    (
        "field_eq",
        Call::Two(OfTwo::Types(NamedComparison::EqualField)),
    ),
    ("view_of_short", Call::ViewOfShort),
    ("as_u128", Call::View(views::Asked::AsU128)),
    ("view_len", Call::View(views::Asked::Len)),
    ("view_buffer", Call::View(views::Asked::Buffer)),
    ("view_offset", Call::View(views::Asked::Offset)),
    ("view_prefix", Call::View(views::Asked::Prefix)),
    ("view_inlined", Call::View(views::Asked::Inlined)),
    ("view_in_buffer", Call::View(views::Asked::InBuffer)),
    ("view_is_good", Call::View(views::Asked::IsGood)),
    ("same_head", Call::View(views::Asked::SameHead)),
    ("same_tail", Call::View(views::Asked::SameTail)),
    ("inlined_less", Call::View(views::Asked::InlinedLess)),
];
