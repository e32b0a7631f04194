//! Hints with the names in a document that lacks a part of the key.

use crate::lines::line_bytes;
use crate::names::{MOST_NAMES, push_more, push_name, quoted};
use crate::near;
use json::{Scratch, Value};
use std::alloc::{AllocError, Global};

/// Appends the names of the first `members` of a document to `text`, at most `MOST_NAMES`, and says
/// how many more there are. Fails if an allocation fails.
fn push_members(
    text: &mut String,
    alloc: Global,
    members: &[(&str, Value<'_>)],
) -> Result<(), AllocError> {
    for (i, (name, _)) in members.iter().take(MOST_NAMES).enumerate() {
        push_name(text, alloc, name.as_bytes(), i == 0)?;
    }
    push_more(text, alloc, members.len().saturating_sub(MOST_NAMES))
}

/// Returns 0 if two names are equal, and else one more than `near::distance`. Returns `None` if the
/// names are not similar.
fn distance(one: &str, other: &str) -> Option<usize> {
    if one == other {
        return Some(0);
    }
    let apart = near::distance(one.as_bytes(), other.as_bytes())?;
    Some(apart.saturating_add(1))
}

/// Returns the index of the member with the name that is most similar to `wanted`, or `None` if no
/// name is similar. If several names are equally similar, returns the first one.
fn nearest(members: &[(&str, Value<'_>)], wanted: &str) -> Option<usize> {
    let mut least = usize::MAX;
    let mut found = None;
    for (i, (name, _)) in members.iter().enumerate() {
        if let Some(apart) = distance(name, wanted) {
            if apart < least {
                least = apart;
                found = Some(i);
            }
        }
    }
    found
}

/// Returns whether a name needs no quotes in a path.
fn is_plain(name: &str) -> bool {
    !name.is_empty()
        && name
            .chars()
            .all(|c| c.is_ascii_alphanumeric() || c == '_' || c == '-')
}

/// Returns the member of the object `value` with the name that is most similar to `name`. Returns
/// `None` if no name is similar, or if `value` is not an object.
fn member_near<'v, 'a>(value: &'v Value<'a>, name: &str) -> Option<&'v (&'a str, Value<'a>)> {
    let Value::Object(members) = value else {
        return None;
    };
    members.get(nearest(members, name)?)
}

/// Appends to `near` the path that leads into `value` along names similar to `names`, with a dot
/// before each name unless `near` is empty. Returns `None` if there is no such path, a name needs
/// quotes, or an allocation fails. Some names may have been appended then.
fn push_near(names: &[&str], value: &Value<'_>, near: &mut String) -> Option<()> {
    let Some((name, rest)) = names.split_first() else {
        return Some(());
    };
    let (found, inner) = member_near(value, name)?;
    if !is_plain(name) || !is_plain(found) {
        return None;
    }
    near.push_str(if near.is_empty() { "" } else { "." }).ok()?;
    near.push_str(found).ok()?;
    push_near(rest, inner, near)
}

/// Returns the path of a part of `document` that is similar to `path`, or `None` if there is none
/// or an allocation fails. A `path` that has quotes or indices gives `None`.
fn path_near(alloc: Global, document: &Value<'_>, path: &str) -> Option<String> {
    let mut names = Vec::new(alloc);
    for name in path.strip_prefix('.').unwrap_or(path).split('.') {
        names.push(name).ok()?;
    }
    let mut near = String::new(alloc);
    push_near(&names, document, &mut near)?;
    Some(near)
}

/// The hint for a path in another notation.
const NOTATION: &str = "paths are written as order.id or items[0].sku";

/// Returns whether a path seems to be written in another notation, such as `$.order.id` or
/// `/order/id`.
fn is_foreign(path: &str) -> bool {
    path.starts_with('$') || path.contains('/')
}

/// Returns `path` without `$`, `/` or `$/` at its beginning, and with dots in place of the other
/// slashes, as `order.id` for `/order/id` and `.order.id` for `$.order.id`. Returns `None` if an
/// allocation fails.
fn in_dots(alloc: Global, path: &str) -> Option<String> {
    let path = path.strip_prefix('$').unwrap_or(path);
    let path = path.strip_prefix('/').unwrap_or(path);
    path.replace(alloc, '/', ".").ok()
}

/// Returns the hint of `hint_in` up to the names of the members. Returns `None` if an allocation
/// fails.
fn start_of(alloc: Global, document: &Value<'_>, path: &str) -> Option<String> {
    match path_near(alloc, document, &in_dots(alloc, path)?) {
        Some(near) => {
            let near = quoted(&near);
            format!(in alloc; "did you mean {near}? The document has ").ok()
        }
        None if is_foreign(path) => { format!(in alloc; "{NOTATION}, and the document has ").ok() }
        None => String::from_str(alloc, "the document has ").ok(),
    }
}

/// Returns a hint about `path`, which leads to no part of `document`. The hint lists the names of
/// the members of the document. If a similar path exists, the hint also asks whether it was meant.
/// Otherwise, if `path` is in another notation, the hint also says how paths are written. Returns
/// `None` if the document is not an object with members, or an allocation fails.
fn hint_in(alloc: Global, document: &Value<'_>, path: &str) -> Option<String> {
    let Value::Object(members) = document else {
        return None;
    };
    if members.is_empty() {
        return None;
    }
    let mut hint = start_of(alloc, document, path)?;
    push_members(&mut hint, alloc, members).ok()?;
    Some(hint)
}

/// Reads line `line` of the regular file `file` again, and returns the hint of `hint_in` about
/// `path`, which the document in this line does not have. The first line is 1. Returns `None` if
/// the line can't be read or is not JSON, or if there is no hint.
fn hint_at(rt: &HostRuntime, file: &str, line: u64, path: &str) -> Option<String> {
    let bytes = line_bytes(rt, file, line)?;
    let text = str::from_utf8(&bytes).ok()?;
    let mut scratch = Scratch::new(rt.alloc());
    match &Value::parse(rt.alloc(), text, &mut scratch) {
        Ok(document) => hint_in(rt.alloc(), document, path),
        Err(_) => None,
    }
}

/// Returns a hint about `path`, which leads to no part of the document in the line with the number
/// `line` of `file`. The first line is 1. The hint lists the names of the members of the document.
/// If the line can't be read again, or the document has no members, the hint only says how paths
/// are written. In this case, returns `None` unless `path` is in another notation.
pub fn members_hint(rt: &HostRuntime, file: &str, line: u64, path: &str) -> Option<String> {
    match hint_at(rt, file, line, path) {
        None if is_foreign(path) => String::from_str(rt.alloc(), NOTATION).ok(),
        hint => hint,
    }
}
