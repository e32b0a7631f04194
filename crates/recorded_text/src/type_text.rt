//! Types of arrays as text.
//!
//! The text of a type is the name of the array's kind. In parentheses follow its size, width or
//! type of keys, if it has one, and the types that it contains: `list(i32)`, `fixedlist(3 i32)`,
//! `struct(a list(i32), b dict(i8 utf8))`, `fixedbinary(2)`.

use crate::fault::Fault;
use polars_arrays_flat::data_type::{ArrowDataType, Field, IntegerType};
use std::alloc::Global;

/// Returns the text of a type. The error is `Memory`.
pub fn write_type(alloc: Global, dtype: &ArrowDataType) -> Result<String, Fault> {
    let mut text = String::new(alloc);
    push_type(&mut text, dtype)?;
    Ok(text)
}

/// Returns the name of the type of a dictionary's keys, such as `i8`.
pub fn key_name(keys: IntegerType) -> &'static str {
    match keys {
        IntegerType::Int8 => "i8",
        IntegerType::Int16 => "i16",
        IntegerType::Int32 => "i32",
        IntegerType::Int64 => "i64",
        IntegerType::UInt8 => "u8",
        IntegerType::UInt16 => "u16",
        IntegerType::UInt32 => "u32",
        IntegerType::UInt64 => "u64",
    }
}

// Returns the name of a type, with an opening parenthesis if the type contains other types. Returns
// `None` for a type with a size, a width or a type of keys: `FixedSizeBinary`, `FixedSizeList` and
// `Dictionary`.
fn plain_name(dtype: &ArrowDataType) -> Option<&'static str> {
    let name = match dtype {
        ArrowDataType::Null => "null",
        ArrowDataType::Boolean => "bool",
        ArrowDataType::Int8 => "i8",
        ArrowDataType::Int16 => "i16",
        ArrowDataType::Int32 => "i32",
        ArrowDataType::Int64 => "i64",
        ArrowDataType::Int128 => "i128",
        ArrowDataType::UInt8 => "u8",
        ArrowDataType::UInt16 => "u16",
        ArrowDataType::UInt32 => "u32",
        ArrowDataType::UInt64 => "u64",
        ArrowDataType::UInt128 => "u128",
        ArrowDataType::Binary => "binary",
        ArrowDataType::LargeBinary => "largebinary",
        ArrowDataType::Utf8 => "utf8",
        ArrowDataType::LargeUtf8 => "largeutf8",
        ArrowDataType::BinaryView => "binaryview",
        ArrowDataType::Utf8View => "utf8view",
        ArrowDataType::List(_) => "list(",
        ArrowDataType::LargeList(_) => "largelist(",
        ArrowDataType::Struct(_) => "struct(",
        _ => return None,
    };
    Some(name)
}

// Appends the text of a type.
#[cycle(types)]
fn push_type(text: &mut String, dtype: &ArrowDataType) -> Result<(), Fault> {
    push_head(text, dtype)?;
    match dtype {
        ArrowDataType::List(held)
        | ArrowDataType::LargeList(held)
        | ArrowDataType::FixedSizeList(held, _)
        | ArrowDataType::Dictionary(_, held) => push_held(text, held),
        ArrowDataType::Struct(fields) => push_fields(text, fields),
        _ => Ok(()),
    }
}

// Appends the text of a type up to the types that it contains, or all of the text if it contains
// none.
fn push_head(text: &mut String, dtype: &ArrowDataType) -> Result<(), Fault> {
    match dtype {
        ArrowDataType::FixedSizeBinary(size) => write!(text, "fixedbinary({size})")?,
        ArrowDataType::FixedSizeList(_, width) => write!(text, "fixedlist({width} ")?,
        ArrowDataType::Dictionary(keys, _) => write!(text, "dict({} ", key_name(*keys))?,
        _ => push_plain(text, dtype)?,
    }
    Ok(())
}

// Appends the name that `plain_name` returns for a type. The error is `Case` if it returns `None`.
fn push_plain(text: &mut String, dtype: &ArrowDataType) -> Result<(), Fault> {
    match plain_name(dtype) {
        Some(name) => text.push_str(name)?,
        None => return Err(Fault::Case),
    }
    Ok(())
}

// Appends the text of the only type that another type contains, and a closing parenthesis.
#[cycle(types)]
fn push_held(text: &mut String, held: &ArrowDataType) -> Result<(), Fault> {
    push_type(text, held)?;
    text.push(')')?;
    Ok(())
}

// Appends the fields of a struct, separated by commas, and a closing parenthesis.
#[cycle(types)]
fn push_fields(text: &mut String, fields: &[Field]) -> Result<(), Fault> {
    for (i, field) in fields.iter().enumerate() {
        if i > 0 {
            text.push_str(", ")?;
        }
        push_field(text, field)?;
    }
    text.push(')')?;
    Ok(())
}

// Appends the name of a field, a space, and the text of its type.
#[cycle(types)]
fn push_field(text: &mut String, field: &Field) -> Result<(), Fault> {
    text.push_str(&field.name)?;
    text.push(' ')?;
    push_type(text, &field.dtype)
}
