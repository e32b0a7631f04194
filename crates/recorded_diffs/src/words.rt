//! Options of a case.

use diff_run::options::Format;
use std::alloc::{AllocError, Global};

/// Returns whether `options` have the word `name`.
pub(crate) fn is_given(options: &[&str], name: &str) -> bool {
    options.contains(&name)
}

/// Returns the value of the first of `options` that is `name=VALUE`, or `None` if there is no such
/// option.
pub(crate) fn value_of<'a>(options: &[&'a str], name: &str) -> Option<&'a str> {
    for option in options {
        match option.split_once('=') {
            Some((given, value)) if given == name => return Some(value),
            _ => {}
        }
    }
    None
}

/// Returns the names in the option `name=NAMES`, which has commas between names. Returns no names
/// if the option is not given.
pub(crate) fn names_of<'a>(
    alloc: Global,
    options: &[&'a str],
    name: &str,
) -> Result<Vec<&'a [u8]>, AllocError> {
    let mut names = Vec::new(alloc);
    if let Some(list) = value_of(options, name) {
        for text in list.split(',') {
            names.push(text.as_bytes())?;
        }
    }
    Ok(names)
}

/// Returns the format of the report: `Json` if the option `json` is given, otherwise `Text`.
pub(crate) fn format_of(options: &[&str]) -> Format {
    if is_given(options, "json") {
        Format::Json
    } else {
        Format::Text
    }
}
