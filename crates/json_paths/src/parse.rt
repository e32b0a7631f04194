//! Paths as text, as users write them.
//!
//! A path is one or more steps, directly after one another. A step is a dot and a name, a dot and a
//! name within quotes, or an index within brackets. The dot before the first name may be left out
//! if the name has no quotes. For example, `a.b[0]` has the names `a` and `b` and the index 0, and
//! `."a.b"` has a single name. A name within quotes is a JSON string. A name without quotes has at
//! least one byte, and no dot, bracket or quote.
//!
//! The text of a pattern is like that of a path. The step `[]` in it is any item of an array, as in
//! `items[].price`.

ghost use Rattle.json.specs.Ascii.{quote, dot, open_bracket};
ghost use Rattle.json.specs.Json.{string, document};
ghost use Rattle.json_paths.specs.Errors.{IsInvalid};
ghost use Rattle.json_paths.specs.PatternViews.{pattern_view};
ghost use Rattle.json_paths.specs.Reading.{Finds, left_at, up_to_quote};
ghost use Rattle.json_paths.specs.Texts.{is_plain, IsNoPath, IsNoPattern, IsPathText};
ghost use Rattle.json_paths.specs.Texts.{IsPatternText, IsPlaceText};
ghost use Rattle.json_paths.specs.Views.{path_view};
ghost use Rattle.std.specs.List.{prefix_len};
ghost use Rattle.std.specs.Prelude.{◌≡◌, ◌≢◌, ◌+◌, ◌<◌, ◌≤◌, ◌∷◌, [], Some, false, length, drop};
ghost use Rattle.std.specs.Prelude.{option_map, slice_index, string_bytes, IfOk, IfErr};
ghost use Rattle.std.specs.Prelude.{MatchOption, IsCharBoundary};

use crate::error::PathError;
use crate::path::{Path, Step};
use crate::pattern::{Pattern, PatternStep};
use json::{Error, Scratch, Value};
use std::alloc::Global;

/// A step of a pattern, and the index of the byte after its text.
#[derive(Drop)]
struct Found {
    step: PatternStep,
    end: usize,
}

/// Returns whether a byte can be in a name without quotes.
fn is_plain(byte: u8) -> bool
    ensures { result ≡ is_plain byte }
{
    !matches!(byte, b'.' | b'[' | b']' | b'"')
}

/// Returns the index of the first byte from `start` on that can't be in a name without quotes, or
/// the length of the text if there is none.
fn plain_end(bytes: &[u8], start: usize) -> usize
    requires { start ≤ length bytes.now }
    ensures { result ≡ start + prefix_len is_plain (drop start bytes.now) }
{
    let mut end = start;
    while end < bytes.len() && is_plain(bytes[end]) {
        end += 1;
    }
    end
}

/// Reads the name without quotes that begins at byte `start`. The dot before it was read already,
/// or is missing. Fails with `Invalid` if the name is empty, and with `Memory` if an allocation
/// fails.
fn plain_name(alloc: Global, text: &str, start: usize) -> Result<Found, PathError>
    requires starts { IsCharBoundary text.now start }
    requires unquoted { slice_index text.now start ≢ quote }
    ensures { Finds text.now start (dot ∷ drop start text.now) result }
{
    let end = plain_end(text.as_bytes(), start);
    if end == start {
        return Err(PathError::Invalid);
    }
    let name = String::from_str(alloc, &text[start..end])?;
    let step = PatternStep::Exactly(Step::Name(name));
    Ok(Found { step, end })
}

/// Returns the index after the closing quote of a name, or `None` if there is no closing quote. The
/// opening quote is at byte `start`.
fn quoted_end(bytes: &[u8], start: usize) -> Option<usize>
    requires { start < length bytes.now }
    ensures { result
        ≡ option_map (λ n. start + 2 + n) (up_to_quote false (drop (start + 1) bytes.now)) }
{
    let mut is_escaped = false;
    for at in start + 1..bytes.len() {
        if bytes[at] == b'"' && !is_escaped {
            return Some(at + 1);
        }
        is_escaped = bytes[at] == b'\\' && !is_escaped;
    }
    None
}

/// Parses the JSON string `quoted`, and returns a copy of the text that it stands for. Fails with
/// `Invalid` if `quoted` is not a JSON string, and with `Memory` if an allocation fails.
fn unquoted(alloc: Global, quoted: &str) -> Result<String, PathError>
    ensures read { IfOk result (λ name. document quoted.now ≡ Some (string (string_bytes name))) }
    ensures invalid { IfErr result
        (λ e. IsInvalid e → (k : _) → document quoted.now ≢ Some (string k)) }
{
    let mut scratch = Scratch::new(alloc);
    match Value::parse(alloc, quoted, &mut scratch) {
        Ok(Value::String(text)) => Ok(String::from_str(alloc, text)?),
        Ok(_) => Err(PathError::Invalid),
        Err(Error::OutOfMemory) => Err(PathError::Memory),
        Err(_) => Err(PathError::Invalid),
    }
}

/// Reads the name within quotes. Its opening quote is at byte `start`. Fails with `Invalid` if the
/// name with its quotes is not a JSON string, and with `Memory` if an allocation fails.
fn quoted_name(alloc: Global, text: &str, start: usize) -> Result<Found, PathError>
    requires within { start < length text.now }
    requires quoted { slice_index text.now start ≡ quote }
    ensures { Finds text.now start (dot ∷ drop start text.now) result }
{
    let Some(end) = quoted_end(text.as_bytes(), start) else {
        return Err(PathError::Invalid);
    };
    let name = unquoted(alloc, &text[start..end])?;
    let step = PatternStep::Exactly(Step::Name(name));
    Ok(Found { step, end })
}

/// Reads the name that begins at byte `start`, with quotes or without them. Fails with `Invalid` if
/// there is no valid name, and with `Memory` if an allocation fails.
fn name_at(alloc: Global, text: &str, start: usize) -> Result<Found, PathError>
    requires { IsCharBoundary text.now start }
    ensures { Finds text.now start (dot ∷ drop start text.now) result }
{
    if start < text.len() && text.as_bytes()[start] == b'"' {
        return quoted_name(alloc, text, start);
    }
    plain_name(alloc, text, start)
}

/// Parses an index in decimal digits. Returns `None` if the text is not digits, or if the index is
/// 2^64 or more.
fn place_of(digits: &str) -> Option<usize>
    ensures { MatchOption result ((i : _) → ¬ (IsPlaceText digits.now i))
        (λ i. IsPlaceText digits.now i) }
{
    // A plus sign is refused here, since `parse` accepts it.
    if digits.starts_with('+') {
        return None;
    }
    digits.parse::<usize>().ok()
}

/// Reads the rest of a step in brackets. The opening bracket is the byte before `start`. An index
/// and a closing bracket are the step to the item at this index. A closing bracket alone is the
/// step to any item. Fails with `Invalid` for any other text, and if the index is 2^64 or more.
fn item_at(text: &str, start: usize) -> Result<Found, PathError>
    requires { IsCharBoundary text.now start }
    ensures { Finds text.now start (open_bracket ∷ drop start text.now) result }
{
    let bytes = text.as_bytes();
    let end = plain_end(bytes, start);
    if end == bytes.len() || bytes[end] != b']' {
        return Err(PathError::Invalid);
    }
    let behind = end + 1;
    if end == start {
        let step = PatternStep::AnyItem;
        return Ok(Found { step, end: behind });
    }
    let Some(place) = place_of(&text[start..end]) else {
        return Err(PathError::Invalid);
    };
    let step = PatternStep::Exactly(Step::Place(place));
    Ok(Found { step, end: behind })
}

/// Reads the step that begins at byte `start`. The dot before the first name may be missing. Fails
/// with `Invalid` if there is no step, and with `Memory` if an allocation fails.
fn step_at(alloc: Global, text: &str, start: usize) -> Result<Found, PathError>
    requires { start < length text.now }
    ensures { Finds text.now start (left_at text.now start) result }
{
    let byte = text.as_bytes()[start];
    if byte == b'[' {
        return item_at(text, start + 1);
    }
    if byte == b'.' {
        return name_at(alloc, text, start + 1);
    }
    if start > 0 || !is_plain(byte) {
        return Err(PathError::Invalid);
    }
    plain_name(alloc, text, start)
}

/// Parses a path. Fails with `Invalid` if the text is not a path, for example because it has the
/// step `[]`, or if an index is 2^64 or more. Fails with `Memory` if an allocation fails.
pub fn parse_path(alloc: Global, text: &str) -> Result<Path, PathError>
    ensures read { IfOk result (λ path. IsPathText text.now (path_view path)) }
    ensures invalid { IfErr result (λ e. IsInvalid e → IsNoPath text.now) }
{
    if text.is_empty() {
        return Err(PathError::Invalid);
    }
    let mut end = 0;
    let mut steps = Vec::new(alloc);
    while end < text.len() {
        let Found { step, end: behind } = step_at(alloc, text, end)?;
        let PatternStep::Exactly(step) = step else {
            return Err(PathError::Invalid);
        };
        steps.push(step)?;
        end = behind;
    }
    Ok(Path { steps })
}

/// Parses a pattern. Fails with `Invalid` if the text is not a pattern or if an index is 2^64 or
/// more, and with `Memory` if an allocation fails.
pub fn parse_pattern(alloc: Global, text: &str) -> Result<Pattern, PathError>
    ensures read { IfOk result (λ pattern. IsPatternText text.now (pattern_view pattern)) }
    ensures invalid { IfErr result (λ e. IsInvalid e → IsNoPattern text.now) }
{
    if text.is_empty() {
        return Err(PathError::Invalid);
    }
    let mut end = 0;
    let mut steps = Vec::new(alloc);
    while end < text.len() {
        let Found { step, end: behind } = step_at(alloc, text, end)?;
        steps.push(step)?;
        end = behind;
    }
    Ok(Pattern { steps })
}
