//! Lists of paths in an option, with commas between them.
//!
//! A comma within quotes is part of a path: the list `."a,b",c` has the paths `."a,b"` and `c`.

ghost use Rattle.std.specs.Prelude.{◌≡◌, ◌++◌, map, IfOk};
ghost use Rattle.dunkelva_options.specs.Lists.{after, all_parts, is_end, list_parts};

use std::alloc::{AllocError, Global};

/// The state of the scanner at a byte of a list: outside of quotes, within quotes, or escaped.
#[derive(Clone, Copy, PartialEq, Eq)]
enum Quoting {
    Outside,
    Inside,
    /// Within quotes, directly after a backslash.
    Escaped,
}

impl Quoting {
    /// Returns the state after `byte` if `self` is the state before it.
    fn after(self, byte: u8) -> Quoting
        ensures { result ≡ after self byte }
    {
        match (self, byte) {
            (Quoting::Outside, b'"') => Quoting::Inside,
            (Quoting::Outside, _) => Quoting::Outside,
            (Quoting::Inside, b'"') => Quoting::Outside,
            (Quoting::Inside, b'\\') => Quoting::Escaped,
            (Quoting::Inside | Quoting::Escaped, _) => Quoting::Inside,
        }
    }

    /// Returns whether `byte` is a comma that ends a path. `self` is the state before `byte`.
    fn is_end(self, byte: u8) -> bool
        ensures { result ≡ is_end self byte }
    {
        self == Quoting::Outside && byte == b','
    }
}

/// Splits `list` at its commas outside of quotes, and appends all parts, also empty ones, to
/// `parts`. An empty list has one part, which is empty.
fn push_parts<'a>(parts: &mut Vec<&'a str>, list: &'a str) -> Result<(), AllocError>
    ensures { IfOk result
        (λ _. map (λ text. text.now) parts.new.items ≡ map (λ text. text.now) parts.old.items
        ++ list_parts list.now) }
{
    let bytes = list.as_bytes();
    let mut quoting = Quoting::Outside;
    let mut start = 0;
    for at in 0..bytes.len() {
        if quoting.is_end(bytes[at]) {
            parts.push(&list[start..at])?;
            start = at + 1;
        }
        quoting = quoting.after(bytes[at]);
    }
    parts.push(&list[start..])?;
    Ok(())
}

/// Splits each of `lists` at its commas outside of quotes, and returns the parts of all lists in
/// order. Empty parts are kept: an empty list has one part, which is empty.
pub fn split_lists<'a>(alloc: Global, lists: &[&'a str]) -> Result<Vec<&'a str>, AllocError>
    ensures { IfOk result
        (λ parts. map (λ text. text.now) parts.items
        ≡ all_parts (map (λ list. list.now) lists.now)) }
{
    let mut parts = Vec::new(alloc);
    for list in lists {
        push_parts(&mut parts, list)?;
    }
    Ok(parts)
}
