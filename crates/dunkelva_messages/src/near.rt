//! Similarity of names, for hints about misspelt ones.

/// The greatest number of adjacent bytes by which similar names differ.
const MOST_OTHER: usize = 2;

/// The least number of bytes that similar names have in common.
const LEAST_COMMON: usize = 2;

/// Returns whether both bytes are given and equal. The case of ASCII letters does not count, and a
/// hyphen and an underscore are equal.
fn are_alike(one: Option<&u8>, other: Option<&u8>) -> bool {
    match (one, other) {
        (Some(b'-' | b'_'), Some(b'-' | b'_')) => true,
        (Some(one), Some(other)) => one.eq_ignore_ascii_case(other),
        _ => false,
    }
}

/// Returns the length of the longest common beginning of two names, in bytes. Bytes are equal as
/// `are_alike` says.
fn common_start(one: &[u8], other: &[u8]) -> usize {
    let most = one.len().min(other.len());
    for i in 0..most {
        if !are_alike(one.get(i), other.get(i)) {
            return i;
        }
    }
    most
}

/// Returns the byte of `name` at index `place`, counted back from the last byte, which has index 0.
/// Returns `None` if there is no such byte.
fn from_end(name: &[u8], place: usize) -> Option<&u8> {
    name.get(name.len().checked_sub(place.saturating_add(1))?)
}

/// Returns the length of the longest common end of two names, in bytes, but at most `most`. Bytes
/// are equal as `are_alike` says.
fn common_end(one: &[u8], other: &[u8], most: usize) -> usize {
    for i in 0..most {
        if !are_alike(from_end(one, i), from_end(other, i)) {
            return i;
        }
    }
    most
}

/// Returns whether two names are equal apart from the case of ASCII letters. A hyphen and an
/// underscore are equal. Equal names give true.
fn differ_by_case(one: &[u8], other: &[u8]) -> bool {
    one.len() == other.len() && common_start(one, other) == one.len()
}

/// Compares two names without their longest common beginning and, in the rest, their longest common
/// end. Returns the number of bytes that are left of the longer name. Returns `None` if the names
/// are not similar: more than two bytes are left, or fewer than two bytes are common.
///
/// The case of ASCII letters does not count, and a hyphen and an underscore are equal. Names that
/// differ only so, or not at all, give 0, however short they are.
pub fn distance(one: &[u8], other: &[u8]) -> Option<usize> {
    if differ_by_case(one, other) {
        return Some(0);
    }
    let start = common_start(one, other);
    let most = one.len().min(other.len()).saturating_sub(start);
    let end = common_end(one, other, most);
    let common = start.saturating_add(end);
    let left = one.len().max(other.len()).saturating_sub(common);
    (left <= MOST_OTHER && common >= LEAST_COMMON).then_some(left)
}
