//! Byte strings as text: `x` and two hexadecimal digits for each byte. All errors are `Memory`.

use crate::fault::Fault;
use polars_arrays_flat::byte_rows::ByteRows;
use std::alloc::Global;

/// The hexadecimal digits by value.
const DIGITS: [char; 16] = [
    '0', '1', '2', '3', '4', '5', '6', '7', '8', '9', 'a', 'b', 'c', 'd', 'e', 'f',
];

/// Appends a byte string to `text`: `x` and two hexadecimal digits for each byte.
pub fn push_bytes(text: &mut String, bytes: &[u8]) -> Result<(), Fault> {
    text.push('x')?;
    for byte in bytes {
        text.push(DIGITS[usize::from(*byte / 16)])?;
        text.push(DIGITS[usize::from(*byte % 16)])?;
    }
    Ok(())
}

/// Returns a byte string as text: `x` and two hexadecimal digits for each byte.
pub fn write_bytes(alloc: Global, bytes: &[u8]) -> Result<String, Fault> {
    let mut text = String::new(alloc);
    push_bytes(&mut text, bytes)?;
    Ok(text)
}

/// Returns the byte strings of all rows, null ones included, each followed by a space, then the
/// number of rows and the number of nulls: `x61 x in 2 rows, 1 null`.
pub fn write_strings<R: ByteRows>(alloc: Global, rows: &R) -> Result<String, Fault> {
    let mut text = String::new(alloc);
    for i in 0..rows.count() {
        push_bytes(&mut text, rows.bytes(i))?;
        text.push(' ')?;
    }
    Ok(format!(in alloc; "{text}in {} rows, {} null", rows.len(), rows.null_count())?)
}
