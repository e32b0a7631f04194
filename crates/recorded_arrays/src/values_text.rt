//! Values as text.

use recorded_text::fault::Fault;
use std::alloc::Global;
use std::fmt::Display;

/// Returns `value` as text.
pub fn write_value<T: Copy + Display>(alloc: Global, value: T) -> Result<String, Fault> {
    value.to_string(alloc).map_err(Fault::from)
}

/// Returns `values` as text, with a space between two values.
pub fn write_values<T: Copy + Display>(alloc: Global, values: &[T]) -> Result<String, Fault> {
    let mut text = String::new(alloc);
    for i in 0..values.len() {
        if i > 0 {
            text.push(' ')?;
        }
        write!(text, "{}", values[i])?;
    }
    Ok(text)
}

/// Appends `value` and a space to `text`.
pub fn push_value<T: Copy + Display>(text: &mut String, value: T) -> Result<(), Fault> {
    write!(text, "{value} ").map_err(Fault::from)
}

/// Appends `more` to `text`. If `more` is an error, returns it.
pub fn push_text(text: &mut String, more: Result<String, Fault>) -> Result<(), Fault> {
    let more = more?;
    text.push_str(&more).map_err(Fault::from)
}
