//! Functions that append what a call found to a text: one value or two values, or `none`. A number
//! is written in decimal, a truth value as `true` or `false`, and a byte string or a text as `x`
//! and two hexadecimal digits for each byte. Two values are separated by a space. The error of each
//! function is `Memory`.

use recorded_text::bytes_text::push_bytes;
use recorded_text::fault::Fault;
use std::fmt::Display;

/// Appends `none` to `text`.
pub fn push_none(text: &mut String) -> Result<(), Fault> {
    text.push_str("none").map_err(Fault::from)
}

/// Appends the number or truth value in `found` to `text`, or `none` if `found` is `None`.
pub fn push_found<T: Copy + Display>(text: &mut String, found: Option<T>) -> Result<(), Fault> {
    match found {
        Some(found) => write!(text, "{found}").map_err(Fault::from),
        None => push_none(text),
    }
}

/// Appends the two numbers or truth values in `found` to `text`, or `none` if `found` is `None`.
pub fn push_pair<T: Copy + Display>(text: &mut String, found: Option<(T, T)>) -> Result<(), Fault> {
    match found {
        Some((least, greatest)) => write!(text, "{least} {greatest}").map_err(Fault::from),
        None => push_none(text),
    }
}

/// Appends the byte string in `found` to `text` in hexadecimal digits, or `none` if `found` is
/// `None`.
pub fn push_string(text: &mut String, found: Option<&[u8]>) -> Result<(), Fault> {
    match found {
        Some(bytes) => push_bytes(text, bytes),
        None => push_none(text),
    }
}

/// Appends the two byte strings in `found` to `text` in hexadecimal digits, or `none` if `found` is
/// `None`.
pub fn push_strings(text: &mut String, found: Option<(&[u8], &[u8])>) -> Result<(), Fault> {
    match found {
        Some((least, greatest)) => push_two(text, least, greatest),
        None => push_none(text),
    }
}

/// Appends the bytes of the text in `found` to `text` in hexadecimal digits, or `none` if `found`
/// is `None`.
pub fn push_text(text: &mut String, found: Option<&str>) -> Result<(), Fault> {
    match found {
        Some(found) => push_bytes(text, found.as_bytes()),
        None => push_none(text),
    }
}

/// Appends the bytes of the two texts in `found` to `text` in hexadecimal digits, or `none` if
/// `found` is `None`.
pub fn push_texts(text: &mut String, found: Option<(&str, &str)>) -> Result<(), Fault> {
    match found {
        Some((least, greatest)) => push_two(text, least.as_bytes(), greatest.as_bytes()),
        None => push_none(text),
    }
}

// Appends `least` and `greatest` to `text` in hexadecimal digits, separated by a space.
fn push_two(text: &mut String, least: &[u8], greatest: &[u8]) -> Result<(), Fault> {
    push_bytes(text, least)?;
    text.push(' ')?;
    push_bytes(text, greatest)
}
