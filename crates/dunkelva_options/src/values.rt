//! Values that a config file gives options, as command-line arguments.
//!
//! The functions that take `alloc` also fail if an allocation fails.

use crate::options::{CliOption, Takes, find_option};
use crate::refusals::form_advice;
use dunkelva_messages::error::{Error, Result};
use dunkelva_messages::names::quoted;
use dunkelva_messages::trouble;
use std::alloc::Global;
use std::fmt;
use std::fmt::{Display, Formatter};
use toml::Value;

/// The name of the option that names the config file.
pub(crate) const CONFIG: &str = "config";

/// Returns whether a config file may set `name`: an option other than `config`, or `left` or
/// `right`.
pub(crate) fn is_known(name: &str) -> bool {
    match find_option(name) {
        Some(_) => name != CONFIG,
        None => name == "left" || name == "right",
    }
}

/// Returns the error for the setting `name`, whose `value` has the wrong type. `takes` describes
/// the values that the setting takes, such as `a text`.
fn misfit(name: &str, takes: &str, value: &Value) -> Error {
    trouble!("{name} takes {takes}, not this {}", value.type_str())
}

/// Returns the text of `value`, to which the config file sets `name`. Fails if `value` is not a
/// string.
pub(crate) fn text_of<'a>(name: &str, value: &'a Value) -> Result<&'a str> {
    match value.as_str() {
        Some(text) => Ok(text),
        None => Err(misfit(name, "a text", value)),
    }
}

/// Appends the argument `--name` to `words` if `value` is true, and nothing if it is false. Fails
/// if `value` is not a truth value.
fn push_switch(words: &mut Vec<String>, alloc: Global, name: &str, value: &Value) -> Result<()> {
    match value.as_bool() {
        Some(true) => words.push(format!(in alloc; "--{name}")?)?,
        Some(false) => {}
        None => return Err(misfit(name, "true or false", value)),
    }
    Ok(())
}

/// Appends the argument `--name=value` to `words`.
fn push_word<V: Display + Drop>(
    words: &mut Vec<String>,
    alloc: Global,
    name: &str,
    value: V,
) -> Result<()> {
    words.push(format!(in alloc; "--{name}={value}")?)?;
    Ok(())
}

/// Appends the argument `--name=value` of an option that takes a text. Fails if `value` is not a
/// string.
fn push_text(words: &mut Vec<String>, alloc: Global, name: &str, value: &Value) -> Result<()> {
    push_word(words, alloc, name, text_of(name, value)?)
}

/// The words that an option accepts as its value, displayed as `text or json`.
#[derive(Clone, Copy)]
struct Choices<'a>(&'a [&'a str]);

impl Display for Choices<'_> {
    fn fmt<W: fmt::Write>(&self, f: &mut Formatter<W>) -> fmt::Result {
        for (i, word) in self.0.iter().enumerate() {
            f.write_str(if i == 0 { "" } else { " or " })?;
            f.write_str(word)?;
        }
        Ok(())
    }
}

/// Appends the argument `--name=value` of an option that takes one of the words `choices`. Fails if
/// `value` is not one of them. The error has a hint if `value` is a report format for which there
/// is another option than `--format`.
fn push_choice(
    words: &mut Vec<String>,
    alloc: Global,
    name: &str,
    choices: &[&str],
    value: &Value,
) -> Result<()> {
    let text = text_of(name, value)?;
    if (&*choices).contains(&text) {
        return push_text(words, alloc, name, value);
    }
    let error = trouble!("{name} takes {}, not {}", Choices(choices), quoted(text));
    match form_advice(text) {
        Some(advice) if name == "format" => Err(error.hint(advice)),
        _ => Err(error),
    }
}

/// Appends the argument `--name=value` of an option that takes a number. Fails if `value` is not an
/// integer.
fn push_number(words: &mut Vec<String>, alloc: Global, name: &str, value: &Value) -> Result<()> {
    match value.as_integer() {
        Some(number) => push_word(words, alloc, name, number),
        None => Err(misfit(name, "a whole number", value)),
    }
}

/// Returns the quotes to put around `name` in a comma-separated list: `"` if it has a comma and no
/// quotes, and else nothing.
fn quotes_for(name: &str) -> &'static str {
    if name.contains(',') && !name.contains('"') {
        "\""
    } else {
        ""
    }
}

/// Appends an argument `--name=text` for each text of the array `value`. A string is treated as an
/// array of this one text. Fails if `value` is neither an array nor a string, or if an item is not
/// a string.
fn push_texts(words: &mut Vec<String>, alloc: Global, name: &str, value: &Value) -> Result<()> {
    let Some(items) = value.as_array() else {
        return push_text(words, alloc, name, value);
    };
    for item in items {
        push_text(words, alloc, name, item)?;
    }
    Ok(())
}

/// Returns the text of `value`, a value or item of the option `name`, which takes a list of names.
/// Fails if `value` is not a string; the error says that the option takes names.
fn name_in<'a>(name: &str, value: &'a Value) -> Result<&'a str> {
    match value.as_str() {
        Some(text) => Ok(text),
        None => Err(misfit(name, "names, as [\"id\"]", value)),
    }
}

/// Appends an argument `--name=item` for each item of the array `value`, with quotes around an item
/// that has a comma. If `value` is a string, appends it unchanged in one argument: it may be a
/// comma-separated list, as on the command line. Fails if `value` is neither an array nor a string,
/// or if an item is not a string.
fn push_names(words: &mut Vec<String>, alloc: Global, name: &str, value: &Value) -> Result<()> {
    let Some(items) = value.as_array() else {
        return push_word(words, alloc, name, name_in(name, value)?);
    };
    for item in items {
        let text = name_in(name, item)?;
        let quotes = quotes_for(text);
        push_word(words, alloc, name, format_args!("{quotes}{text}{quotes}"))?;
    }
    Ok(())
}

/// Returns whether a table of bounds such as `[tolerance]` seems to set `path` to `bound` by
/// mistake: `path` is a name that a config file may set, and `bound` is not a number. A text
/// without letters counts as a number. In TOML, a line below `[tolerance]` belongs to this table.
fn is_option_below(path: &str, bound: &Value) -> bool {
    let is_number = match bound {
        Value::String(text) => !text.contains(|c: char| c.is_alphabetic()),
        Value::Integer(_) | Value::Float(_) => true,
        _ => false,
    };
    is_known(path) && !is_number
}

/// Appends the argument `--name=path=bound`, with quotes around a path that has a comma. Fails if
/// `bound` is neither a string nor an integer, or if it seems to be the value of an option
/// (`is_option_below`). A float is refused since reading it may have lost digits.
fn push_bound(
    words: &mut Vec<String>,
    alloc: Global,
    name: &str,
    path: &str,
    bound: &Value,
) -> Result<()> {
    if is_option_below(path, bound) {
        return Err(trouble!("set {path} above [{name}]: lines below it are bounds"));
    }
    let quotes = quotes_for(path);
    match bound {
        Value::String(text) => {
            let value = format_args!("{quotes}{path}{quotes}={text}");
            push_word(words, alloc, name, value)
        }
        Value::Integer(number) => {
            let value = format_args!("{quotes}{path}{quotes}={number}");
            push_word(words, alloc, name, value)
        }
        other => Err(misfit(name, "bounds in quotes such as \"0.01\"", other)),
    }
}

/// Appends an argument `--name=path=bound` for each path and bound of the table `value`, such as `{
/// price = "0.01" }`. If `value` is not a table, it has to be an array of texts such as
/// `"price=0.01"`, or one such text, and is appended by `push_texts`. Fails for other values, and
/// for a bound that `push_bound` refuses.
fn push_bounds(words: &mut Vec<String>, alloc: Global, name: &str, value: &Value) -> Result<()> {
    let Some(bounds) = value.as_table() else {
        return push_texts(words, alloc, name, value);
    };
    for (path, bound) in bounds {
        push_bound(words, alloc, name, path, bound)?;
    }
    Ok(())
}

/// Appends the arguments that give `option` the value `value` to `words`. Fails if the option does
/// not take this value.
pub(crate) fn push_option(
    words: &mut Vec<String>,
    alloc: Global,
    option: &CliOption,
    value: &Value,
) -> Result<()> {
    match option.takes {
        Takes::Nothing => push_switch(words, alloc, option.id, value),
        Takes::Text => push_text(words, alloc, option.id, value),
        Takes::Word(choices) => push_choice(words, alloc, option.id, choices, value),
        Takes::Number => push_number(words, alloc, option.id, value),
        Takes::List => push_names(words, alloc, option.id, value),
        Takes::Texts => push_bounds(words, alloc, option.id, value),
    }
}
