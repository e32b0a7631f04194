//! Names in the texts of paths. They are written as `json_changes` writes them.

ghost use Rattle.std.specs.List.{list_all};
ghost use Rattle.std.specs.Prelude.{◌≡◌, ◌++◌, OnOk, length, take};
ghost use Rattle.json.specs.Print.{quoted};
ghost use Rattle.json_changes.specs.Texts.{is_plain, is_plain_byte, name_text};
ghost use Rattle.json_parts.specs.Parts.{item_path};

use json::{Value, to_vec};
use std::alloc::{AllocError, Global};

/// Returns whether all bytes are ASCII letters, ASCII digits, `_` or `-`. A name with other bytes
/// is quoted in a path.
fn are_plain(bytes: &[u8]) -> bool
    ensures { result ≡ list_all is_plain_byte bytes.now }
{
    bytes
        .iter()
        .all(|b| b.is_ascii_alphanumeric() || *b == b'_' || *b == b'-')
}

/// Returns whether a name needs no quotes in a path: it is not empty, and its bytes are plain
/// (`are_plain`).
fn is_plain(name: &str) -> bool
    ensures { result ≡ is_plain name.now }
{
    !name.is_empty() && are_plain(name.as_bytes())
}

/// Appends a name to a path as a JSON string.
fn push_quoted(alloc: Global, path: &mut Vec<u8>, name: &str) -> Result<(), AllocError>
    ensures { OnOk result (path.new.items ≡ path.old.items ++ quoted name.now) }
{
    let value: Value<'_> = Value::String(name);
    let text = to_vec(alloc, &value)?;
    path.extend_from_slice(text.as_slice())?;
    Ok(())
}

/// Appends to a path the step that leads to the member named `key`: `.key`, or `."a b"` if the name
/// needs quotes. At the beginning of a path a name without quotes has no dot.
fn push_step(alloc: Global, path: &mut Vec<u8>, key: &str) -> Result<(), AllocError>
    ensures { OnOk result (path.new.items ≡ path.old.items ++ name_text path.old.items key.now) }
{
    if !is_plain(key) {
        path.push(b'.')?;
        return push_quoted(alloc, path, key);
    }
    if !path.is_empty() {
        path.push(b'.')?;
    }
    path.extend_from_slice(key.as_bytes())?;
    Ok(())
}

/// Appends to a path the step that leads to the member named `key`: `.key`, or `."a b"` if the name
/// needs quotes. At the beginning of a path a name without quotes has no dot. The contract also
/// states that the text before the step is unchanged.
pub(crate) fn push_name(alloc: Global, path: &mut Vec<u8>, key: &str) -> Result<(), AllocError>
    ensures path { OnOk result
        (path.new.items ≡ path.old.items ++ name_text path.old.items key.now) }
    ensures front { OnOk result (take (length path.old.items) path.new.items ≡ path.old.items) }
{
    push_step(alloc, path, key)?;
    Ok(())
}

/// Appends to a path the step to any item of an array, `[]`. The contract also states that the text
/// before the step is unchanged.
pub(crate) fn push_any_item(path: &mut Vec<u8>) -> Result<(), AllocError>
    ensures path { OnOk result (path.new.items ≡ item_path path.old.items) }
    ensures front { OnOk result (take (length path.old.items) path.new.items ≡ path.old.items) }
{
    path.extend_from_slice(b"[]")?;
    Ok(())
}
