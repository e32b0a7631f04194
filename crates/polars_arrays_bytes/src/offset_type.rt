//! Offset types of byte strings and texts.

ghost use Rattle.std.specs.Prelude.{◌≡◌};
ghost use Rattle.polars_arrays_flat.specs.DataType.{kind_of};
ghost use Rattle.polars_arrays_flat.specs.Kind.{Kind, BinaryKind, LargeBinaryKind, Utf8Kind};
ghost use Rattle.polars_arrays_flat.specs.Kind.{LargeUtf8Kind};

use polars_arrays_flat::data_type::ArrowDataType;
use polars_arrays_numbers::offset::Offset;

/// A type of offsets, with two types of arrays: one of byte strings and one of texts, such as
/// `Binary` and `Utf8` for `i32`.
pub trait OffsetType: Offset {
    // The kind of an array of byte strings with these offsets.
    ghost binary_kind: { Kind };

    // The kind of an array of texts with these offsets.
    ghost text_kind: { Kind };

    /// Returns the type of an array of byte strings with these offsets.
    fn binary_data_type() -> ArrowDataType
        ensures { kind_of result ≡ Self.binary_kind };

    /// Returns the type of an array of texts with these offsets.
    fn text_data_type() -> ArrowDataType
        ensures { kind_of result ≡ Self.text_kind };
}

impl OffsetType for i32 {
    ghost binary_kind = { BinaryKind };

    ghost text_kind = { Utf8Kind };

    fn binary_data_type() -> ArrowDataType {
        ArrowDataType::Binary
    }

    fn text_data_type() -> ArrowDataType {
        ArrowDataType::Utf8
    }
}

impl OffsetType for i64 {
    ghost binary_kind = { LargeBinaryKind };

    ghost text_kind = { LargeUtf8Kind };

    fn binary_data_type() -> ArrowDataType {
        ArrowDataType::LargeBinary
    }

    fn text_data_type() -> ArrowDataType {
        ArrowDataType::LargeUtf8
    }
}
