//! Names in messages.

use std::alloc::{AllocError, Global};
use std::fmt;
use std::fmt::{Display, Formatter};

/// The greatest number of names in a list.
pub const MOST_NAMES: usize = 12;

/// The greatest length of a name in a list, in bytes. A longer name is cut.
const MOST_BYTES: usize = 60;

/// The greatest length of a single name in a message, in bytes. A longer name is cut.
const MOST_OF_ONE: usize = 200;

/// A name that is displayed in quotes: `start` is the part of it that is kept. If `is_cut`, the
/// rest is left out, and two dots follow.
#[derive(Clone, Copy)]
pub struct QuotedName<'a> {
    start: &'a str,
    is_cut: bool,
}

impl<'a> QuotedName<'a> {
    /// Keeps the first characters of `name` that have at most `most` bytes together. No character
    /// is split.
    fn cut(name: &'a str, most: usize) -> QuotedName<'a> {
        let start = &name[..name.floor_char_boundary(most)];
        QuotedName {
            start,
            is_cut: start.len() < name.len(),
        }
    }
}

impl Display for QuotedName<'_> {
    fn fmt<W: fmt::Write>(&self, f: &mut Formatter<W>) -> fmt::Result {
        let dots = if self.is_cut { ".." } else { "" };
        write!(f, "{:?}{dots}", self.start)
    }
}

/// Returns `name` to be displayed in quotes. It is cut if it has more than 200 bytes.
pub fn quoted(name: &str) -> QuotedName<'_> {
    QuotedName::cut(name, MOST_OF_ONE)
}

/// Appends `name` in quotes to the list `text`, after a comma unless `is_first`. A name of more
/// than 60 bytes is cut. For a name that is not UTF-8, appends `one that is not UTF-8`. Fails if an
/// allocation fails.
pub fn push_name(
    text: &mut String,
    alloc: Global,
    name: &[u8],
    is_first: bool,
) -> Result<(), AllocError> {
    text.push_str(if is_first { "" } else { ", " })?;
    let Ok(name) = str::from_utf8(name) else {
        return text.push_str("one that is not UTF-8");
    };
    let name = QuotedName::cut(name, MOST_BYTES);
    text.push_str(&format!(in alloc; "{name}")?)
}

/// Appends ` and N more` to the list `text`, where N is `more`, the number of names that the list
/// leaves out. Appends nothing if `more` is 0. Fails if an allocation fails.
pub fn push_more(text: &mut String, alloc: Global, more: usize) -> Result<(), AllocError> {
    if more == 0 {
        return Ok(());
    }
    text.push_str(&format!(in alloc; " and {more} more")?)
}
