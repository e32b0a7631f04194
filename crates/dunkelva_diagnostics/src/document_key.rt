//! The key of a document, for an error message. For this the file is read again.

use dunkelva_messages::lines::line_bytes;
use dunkelva_messages::names::push_name;
use json::{Scratch, Value};
use json_paths::path::Path;
use std::alloc::Global;

/// The greatest length, in bytes, of a number that is shown in a message.
const MOST_BYTES: usize = 60;

/// Appends `part`, a part of a key, to `text`, with a comma before it unless `is_first` is true. A
/// missing part is written as null. Returns `None` if the part is a list, an object or a number of
/// more than 60 bytes, or if an allocation fails.
fn push_part(
    text: &mut String,
    alloc: Global,
    part: Option<&Value<'_>>,
    is_first: bool,
) -> Option<()> {
    let word = match part {
        None | Some(Value::Null) => "null",
        Some(Value::Bool(true)) => "true",
        Some(Value::Bool(false)) => "false",
        Some(Value::Number(number)) => *number,
        Some(Value::String(name)) => return push_name(text, alloc, name.as_bytes(), is_first).ok(),
        Some(_) => return None,
    };
    if word.len() > MOST_BYTES {
        return None;
    }
    text.push_str(if is_first { "" } else { ", " }).ok()?;
    text.push_str(word).ok()
}

/// Returns a list, as text, of the parts that `document` has at `paths`, the paths of the key.
/// Returns `None` if a part is a list, an object or a number of more than 60 bytes, or if an
/// allocation fails.
fn parts_of(alloc: Global, document: &Value<'_>, paths: &[Path]) -> Option<String> {
    let mut text = String::new(alloc);
    for (i, path) in paths.iter().enumerate() {
        push_part(&mut text, alloc, path.part_of(document), i == 0)?;
    }
    Some(text)
}

/// Reads the regular file `file` again, and returns the key of the document in the line `line`, as
/// text. The first line is 1. `paths` are the paths of the key. Returns `None` if the line can't be
/// read again or is not JSON, or if `parts_of` returns `None`.
pub(crate) fn document_key(
    rt: &HostRuntime,
    file: &str,
    line: u64,
    paths: &[Path],
) -> Option<String> {
    let bytes = line_bytes(rt, file, line)?;
    let text = str::from_utf8(&bytes).ok()?;
    let mut scratch = Scratch::new(rt.alloc());
    match &Value::parse(rt.alloc(), text, &mut scratch) {
        Ok(document) => parts_of(rt.alloc(), document, paths),
        Err(_) => None,
    }
}
