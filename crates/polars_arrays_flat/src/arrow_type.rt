//! Number types that have an Arrow type.

ghost use Rattle.std.specs.Prelude.{◌≡◌};
ghost use Rattle.polars_arrays_flat.specs.DataType.{kind_of};
ghost use Rattle.polars_arrays_flat.specs.Kind.{Kind, Int8Kind, Int16Kind, Int32Kind, Int64Kind};
ghost use Rattle.polars_arrays_flat.specs.Kind.{Int128Kind, UInt8Kind, UInt16Kind, UInt32Kind};
ghost use Rattle.polars_arrays_flat.specs.Kind.{UInt64Kind, UInt128Kind};

use crate::data_type::ArrowDataType;
use polars_arrays_numbers::native_type::NativeType;

/// A number type that has an Arrow type, as `i32` has `Int32`.
pub trait ArrowType: NativeType {
    // The kind of an array of these numbers.
    ghost kind: { Kind };

    /// Returns the type of an array of these numbers.
    fn arrow_data_type() -> ArrowDataType
        ensures { kind_of result ≡ kind };
}

impl ArrowType for i8 {
    ghost kind = { Int8Kind };

    fn arrow_data_type() -> ArrowDataType {
        ArrowDataType::Int8
    }
}

impl ArrowType for i16 {
    ghost kind = { Int16Kind };

    fn arrow_data_type() -> ArrowDataType {
        ArrowDataType::Int16
    }
}

impl ArrowType for i32 {
    ghost kind = { Int32Kind };

    fn arrow_data_type() -> ArrowDataType {
        ArrowDataType::Int32
    }
}

impl ArrowType for i64 {
    ghost kind = { Int64Kind };

    fn arrow_data_type() -> ArrowDataType {
        ArrowDataType::Int64
    }
}

impl ArrowType for i128 {
    ghost kind = { Int128Kind };

    fn arrow_data_type() -> ArrowDataType {
        ArrowDataType::Int128
    }
}

impl ArrowType for u8 {
    ghost kind = { UInt8Kind };

    fn arrow_data_type() -> ArrowDataType {
        ArrowDataType::UInt8
    }
}

impl ArrowType for u16 {
    ghost kind = { UInt16Kind };

    fn arrow_data_type() -> ArrowDataType {
        ArrowDataType::UInt16
    }
}

impl ArrowType for u32 {
    ghost kind = { UInt32Kind };

    fn arrow_data_type() -> ArrowDataType {
        ArrowDataType::UInt32
    }
}

impl ArrowType for u64 {
    ghost kind = { UInt64Kind };

    fn arrow_data_type() -> ArrowDataType {
        ArrowDataType::UInt64
    }
}

impl ArrowType for u128 {
    ghost kind = { UInt128Kind };

    fn arrow_data_type() -> ArrowDataType {
        ArrowDataType::UInt128
    }
}
