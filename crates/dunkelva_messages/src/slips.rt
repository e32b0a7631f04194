//! Common mistakes in lines that should be JSON.

use crate::lines::BLANKS;
use json::{Scratch, Value};
use std::alloc::Global;

/// Beginnings of values and comments of other formats, each with the hint for it.
const STARTS: [(&str, &str); 11] = [
    ("NaN", "JSON has no NaN"),
    ("Infinity", "JSON has no Infinity"),
    ("-Infinity", "JSON has no -Infinity"),
    ("True", "JSON has true, not True"),
    ("False", "JSON has false, not False"),
    ("None", "JSON has null, not None"),
    ("undefined", "JSON has null, not undefined"),
    ("'", "JSON has double quotes, not single ones"),
    ("#", "JSON has no comments"),
    ("//", "JSON has no comments"),
    ("/*", "JSON has no comments"),
];

/// Returns the hint for `rest` if it begins with one of `STARTS`, and else `None`.
fn start_hint(rest: &str) -> Option<&'static str> {
    for (start, hint) in &STARTS {
        if rest.starts_with(*start) {
            return Some(*hint);
        }
    }
    None
}

/// Returns whether a text begins with a decimal digit.
fn begins_with_digit(text: &str) -> bool {
    matches!(text.as_bytes(), [b'0'..=b'9', ..])
}

/// Returns the hint for `rest` if it begins with a number that JSON does not allow: one that has a
/// plus sign, or no digit before the point. Otherwise returns `None`.
fn number_hint(rest: &str) -> Option<&'static str> {
    if let Some(number) = rest.strip_prefix('+') {
        let is_number = begins_with_digit(number) || number.starts_with('.');
        return is_number.then_some("JSON has no + before a number");
    }
    let number = rest.strip_prefix('-').unwrap_or(rest);
    if begins_with_digit(number.strip_prefix('.')?) {
        return Some("JSON has a digit before the point, as 0.5");
    }
    None
}

/// Returns whether `rest` begins with a number that has a zero before its other digits, such as
/// `01`.
fn has_leading_zero(rest: &str) -> bool {
    let number = rest.strip_prefix('-').unwrap_or(rest);
    matches!(number.as_bytes(), [b'0', b'0'..=b'9', ..])
}

/// The greatest depth to which arrays and objects nest in a document.
const MOST_DEEP: usize = 128;

/// Returns the number of arrays and objects that are open at the end of `before`, which is the
/// beginning of a document.
fn depth_of(before: &str) -> usize {
    let mut depth = 0_usize;
    let mut is_inside = false;
    let mut is_escaped = false;
    for byte in before.bytes() {
        match byte {
            b'"' if !is_escaped => is_inside = !is_inside,
            b'{' | b'[' if !is_inside => depth = depth.saturating_add(1),
            b'}' | b']' if !is_inside => depth = depth.saturating_sub(1),
            _ => {}
        }
        is_escaped = byte == b'\\' && !is_escaped;
    }
    depth
}

/// Returns whether `rest` begins with an array or object that is nested deeper than a document
/// allows, and that stands where a document may have a value. `before` is the text of the document
/// before `rest`.
fn nests_too_deep(before: &str, rest: &str) -> bool {
    let is_value = before.ends_with(':') || before.ends_with('[') || before.ends_with(',');
    let is_nested = rest.starts_with('[') || rest.starts_with('{');
    is_value && is_nested && depth_of(before) == MOST_DEEP
}

/// Returns whether `rest` begins with the name of a member without quotes. `before` is the text
/// before `rest` in the line, without blanks at its end.
fn lacks_quotes(before: &str, rest: &str) -> bool {
    let behind = rest.trim_start_matches(|c: char| c.is_ascii_alphanumeric() || c == '_');
    let is_first = before.ends_with('{') || before.ends_with(',');
    let is_name = behind.trim_start_matches(BLANKS).starts_with(':');
    is_first && is_name && behind.len() < rest.len()
}

/// Returns whether `rest` begins with a string that has no closing quote.
fn never_ends(rest: &str) -> bool {
    let Some(inside) = rest.strip_prefix('"') else {
        return false;
    };
    let mut is_escaped = false;
    for byte in inside.bytes() {
        if byte == b'"' && !is_escaped {
            return false;
        }
        is_escaped = byte == b'\\' && !is_escaped;
    }
    true
}

/// Returns whether `text` is a JSON object that ends with the last byte of `text`.
fn is_document(alloc: Global, text: &str) -> bool {
    if !text.ends_with('}') {
        return false;
    }
    let mut scratch = Scratch::new(alloc);
    match &Value::parse(alloc, text, &mut scratch) {
        Ok(Value::Object(_)) => true,
        _ => false,
    }
}

/// Returns a hint about the mistake in a line that is not a document, or `None` if no hint is
/// known. `rest` is the text of the line from the fault on, and `before` the text before it,
/// without blanks at its end.
fn slip_between(alloc: Global, before: &str, rest: &str) -> Option<&'static str> {
    if lacks_quotes(before, rest) {
        return Some("a name stands in double quotes");
    }
    if is_document(alloc, before) {
        return Some("the document ends before this, and each has a line of its own");
    }
    if before.ends_with(',') && (rest.starts_with('}') || rest.starts_with(']')) {
        return Some("no comma may stand before } or ]");
    }
    if never_ends(rest) {
        return Some("the string never ends");
    }
    if rest.is_empty() {
        return Some("the line ends before the document does");
    }
    if nests_too_deep(before, rest) {
        return Some("documents nest at most 128 deep");
    }
    if has_leading_zero(rest) {
        return Some("JSON has no zero before other digits of a number");
    }
    number_hint(rest).or(start_hint(rest))
}

/// Returns a hint about the mistake in `text`, a line that is not a document, or `None` if no hint
/// is known. The fault is at `column`, which counts characters from 1.
pub(crate) fn slip_at(alloc: Global, text: &str, column: u64) -> Option<&'static str> {
    let mut chars = text.chars();
    for _ in 1..column {
        chars.next()?;
    }
    let rest = chars.as_str();
    let place = text.len().checked_sub(rest.len())?;
    let before = text.get(..place)?.trim_end_matches(BLANKS);
    slip_between(alloc, before, rest)
}
