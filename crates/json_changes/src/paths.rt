//! Paths as text.

ghost use Rattle.std.specs.List.{list_all};
ghost use Rattle.std.specs.Prelude.{◌≡◌, ◌++◌, IfOk, OnOk};
ghost use Rattle.json.specs.Print.{quoted};
ghost use Rattle.json_paths.specs.Paths.{name, place};
ghost use Rattle.json_paths.specs.Views.{step_view};
ghost use Rattle.json_changes.specs.Texts.{is_plain, is_plain_byte, path_text, trail_view};
ghost use Rattle.json_changes.specs.Texts.{with_step};

use itoa::Buffer;
use json::{Value, to_vec};
use json_paths::path::Step;
use std::alloc::{AllocError, Global};

/// Returns whether all bytes can be in a name without quotes: letters and digits of ASCII, `_` and
/// `-`.
fn are_plain(bytes: &[u8]) -> bool
    ensures { result ≡ list_all is_plain_byte bytes.now }
{
    bytes
        .iter()
        .all(|b| b.is_ascii_alphanumeric() || *b == b'_' || *b == b'-')
}

/// Returns whether a name needs no quotes in a path.
fn is_plain(name: &str) -> bool
    ensures { result ≡ is_plain name.now }
{
    !name.is_empty() && are_plain(name.as_bytes())
}

/// Appends a name as a JSON string.
fn push_quoted(alloc: Global, path: &mut Vec<u8>, name: &str) -> Result<(), AllocError>
    ensures { OnOk result (path.new.items ≡ path.old.items ++ quoted name.now) }
{
    let value: Value<'_> = Value::String(name);
    let text = to_vec(alloc, &value)?;
    path.extend_from_slice(text.as_slice())?;
    Ok(())
}

/// Appends the text of the step to the member named `key`: `.key`, or `."a b"` if the name needs
/// quotes. At the beginning of a path a name without quotes has no dot.
fn push_name(alloc: Global, path: &mut Vec<u8>, key: &str) -> Result<(), AllocError>
    ensures { OnOk result (path.new.items ≡ with_step path.old.items (name key.now)) }
{
    if !is_plain(key) {
        path.push(b'.')?;
        return push_quoted(alloc, path, key);
    }
    if !path.is_empty() {
        path.push(b'.')?;
    }
    path.extend_from_slice(key.as_bytes())?;
    Ok(())
}

/// Appends the text of the step to the item at index `i`, such as `[0]`.
fn push_place(path: &mut Vec<u8>, i: usize) -> Result<(), AllocError>
    ensures { OnOk result (path.new.items ≡ with_step path.old.items (place i)) }
{
    let mut buffer = Buffer::new();
    path.push(b'[')?;
    path.extend_from_slice(buffer.format(i).as_bytes())?;
    path.push(b']')?;
    Ok(())
}

/// Appends the text of a step to `path`.
fn push_step(alloc: Global, path: &mut Vec<u8>, step: &Step) -> Result<(), AllocError>
    ensures { OnOk result (path.new.items ≡ with_step path.old.items (step_view step.now)) }
{
    match step {
        Step::Name(name) => push_name(alloc, path, name.as_str()),
        Step::Place(place) => push_place(path, *place),
    }
}

/// Returns a path as text, such as `items[0].price`.
pub(crate) fn text_of_path(alloc: Global, trail: &[Step]) -> Result<Vec<u8>, AllocError>
    ensures { IfOk result (λ text. text.items ≡ path_text (trail_view trail.now)) }
{
    let mut path = Vec::new(alloc);
    for i in 0..trail.len() {
        push_step(alloc, &mut path, &trail[i])?;
    }
    Ok(path)
}
