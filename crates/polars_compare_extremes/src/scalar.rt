//! A present row of an array of any kind that has extremes.

/// A present row of an array: a truth value, a number, or bytes or a text borrowed from the array.
/// The variant has the name of the array's kind.
#[derive(Clone, Copy, Debug)]
pub enum AnyScalar<'a> {
    Boolean(bool),
    Int8(i8),
    Int16(i16),
    Int32(i32),
    Int64(i64),
    Int128(i128),
    UInt8(u8),
    UInt16(u16),
    UInt32(u32),
    UInt64(u64),
    UInt128(u128),
    Binary(&'a [u8]),
    LargeBinary(&'a [u8]),
    Utf8(&'a str),
    LargeUtf8(&'a str),
    BinaryView(&'a [u8]),
    Utf8View(&'a str),
}
