//! Options that are set in a file, which `--config` names.
//!
//! The file is in TOML. It sets options by their names, and the two input files as `left` and
//! `right`. Options on the command line override those in the file.
//!
//! The functions that take `alloc` or `rt` also fail if an allocation fails.

use crate::given::{is_given, split_word};
use crate::options::{CliOption, options};
use crate::refusals::advice_of_name;
use crate::values::{CONFIG, is_known, push_option, text_of};
use dunkelva_messages::error::{Error, Result};
use dunkelva_messages::names::quoted;
use dunkelva_messages::near::distance;
use dunkelva_messages::trouble;
use std::alloc::{AllocError, Global};
use std::fs;
use toml::Table;

/// The settings in a config file.
#[derive(Drop)]
pub struct Config {
    /// The options in the file, as command-line arguments such as `--key=id`.
    pub words: Vec<String>,
    /// The name of the first input file, if the config file sets it.
    pub left: Option<String>,
    /// The name of the second input file, if the config file sets it.
    pub right: Option<String>,
}

/// Returns the name of the option that is most similar to `name` (`distance`), or `None` if no
/// option is similar. If several options are equally similar, returns the first one.
pub(crate) fn option_near(name: &str) -> Option<&'static str> {
    let mut least = usize::MAX;
    let mut near = None;
    for option in options() {
        if let Some(apart) = distance(option.id.as_bytes(), name.as_bytes()) {
            if apart < least {
                least = apart;
                near = Some(option.id);
            }
        }
    }
    near
}

/// Returns the error for `name`, which a config file sets but may not set. The hint names a similar
/// option, or else says what to give in place of an option of another program. If there is neither,
/// the hint says that options are set by their names.
fn unknown(name: &str) -> Error {
    let error = trouble!("a file of options can't set {}", quoted(name));
    match (option_near(name), advice_of_name(name)) {
        (Some(id), _) if id != CONFIG => error.hint(format_args!("did you mean {id:?}?")),
        (_, Some(advice)) => error.hint(advice),
        _ => error.hint("it sets options by their names, as schema-only"),
    }
}

/// Fails if `table`, the content of a config file, sets a name that it may not set (`is_known`).
fn refuse_unknown(table: &Table) -> Result<()> {
    for (name, _) in table {
        if !is_known(name) {
            return Err(unknown(name));
        }
    }
    Ok(())
}

/// Returns whether the option `other`, given on the command line, overrides the option `option` of
/// a config file: they are the same option, one excludes the other, or `other` refuses `option`.
fn leaves_out(other: &CliOption, option: &CliOption) -> bool {
    let is_apart = other.excludes.contains(&option.id) || option.excludes.contains(&other.id);
    other.id == option.id || is_apart || other.refuses.contains(&option.id)
}

/// Returns whether the command line `words` overrides the option `option` of a config file.
fn is_replaced(words: &[String], option: &CliOption) -> bool {
    for other in options() {
        if leaves_out(other, option) && is_given(words, other.id) {
            return true;
        }
    }
    false
}

/// Returns the path that the command line `words` gives with `--config`, or `None` if it gives
/// none. Arguments after `--` do not count.
fn file_given(words: &[String]) -> Option<&str> {
    for i in 0..words.len() {
        match split_word(&words[i]) {
            Some(("", None)) => return None,
            Some((CONFIG, Some(path))) => return Some(path),
            Some((CONFIG, None)) => return words.get(i.saturating_add(1)).map(String::as_str),
            _ => {}
        }
    }
    None
}

/// Returns a copy of the string to which `table` sets `name`, or `None` if it does not set `name`.
/// Fails if the value is not a string.
fn member_text(alloc: Global, table: &Table, name: &str) -> Result<Option<String>> {
    match table.get(name) {
        Some(value) => Ok(Some(String::from_str(alloc, text_of(name, value)?)?)),
        None => Ok(None),
    }
}

/// Fails if `words`, the arguments made from a config file, give an option together with another
/// one that it excludes.
fn refuse_excluded(words: &[String]) -> Result<()> {
    for option in options() {
        for other in option.excludes {
            if is_given(words, option.id) && is_given(words, *other) {
                return Err(trouble!("{} can't be used with {other}", option.id));
            }
        }
    }
    Ok(())
}

/// Returns the settings in `table`, the content of a config file. Options that the command line
/// `given` overrides are left out. Fails if a name is unknown, a value has a wrong type, or two of
/// the remaining options exclude each other.
fn config_of(alloc: Global, table: &Table, given: &[String]) -> Result<Config> {
    refuse_unknown(table)?;
    let mut words = Vec::new(alloc);
    for option in options() {
        if let Some(value) = table.get(option.id) {
            if !is_replaced(given, option) {
                push_option(&mut words, alloc, option, value)?;
            }
        }
    }
    refuse_excluded(&words)?;
    let left = member_text(alloc, table, "left")?;
    let right = member_text(alloc, table, "right")?;
    Ok(Config { words, left, right })
}

/// Returns the number of the line of `text` that has the byte at index `place`. The first line is
/// 1.
fn line_at(text: &str, place: usize) -> usize {
    let before = text.as_bytes().iter().take(place);
    before
        .filter(|byte| **byte == b'\n')
        .count()
        .saturating_add(1)
}

/// Returns whether a line of TOML seems to set a text without quotes, such as `key = id` or `key =
/// [id]`.
fn lacks_quotes(line: &str) -> bool {
    let Some((_, value)) = line.split_once('=') else {
        return false;
    };
    let value = value.trim_start_matches(['[', ' ', '\t']);
    let is_word = value.starts_with(|c: char| c.is_alphabetic() || c == '_');
    let word = value
        .split([',', ']', '#', ' ', '\t'])
        .next()
        .unwrap_or("")
        .trim();
    is_word && !["true", "false", "inf", "nan"].contains(&word)
}

/// Returns whether a line of TOML sets one of the words that other formats take for true or false,
/// such as `unique = yes`.
fn sets_other_truth(line: &str) -> bool {
    let Some((_, value)) = line.split_once('=') else {
        return false;
    };
    let word = value.split('#').next().unwrap_or("").trim();
    ["yes", "no", "on", "off", "True", "False", "TRUE", "FALSE"].contains(&word)
}

/// Returns whether a line seems to be of YAML or JSON, such as `key: id` or `{"key": "id"}`.
fn is_other_format(line: &str) -> bool {
    let line = line.trim_start();
    let is_begun = line.starts_with('{') || line.starts_with("---") || line.starts_with("- ");
    is_begun || line.contains(':') && !line.contains('=')
}

/// Returns the error for a config file whose content `text` is not TOML. `error` is the error of
/// the TOML parser. The message begins with the number of the line. It advises what to write if the
/// line lacks quotes, has a word such as `yes`, or seems to be of another format. If `error` has no
/// place in `text`, the message is `out of memory`.
fn no_table(text: &str, error: &toml::de::Error) -> Error {
    let Some(span) = error.span() else {
        return trouble!("out of memory");
    };
    let number = line_at(text, span.start);
    let line = text.lines().nth(number.saturating_sub(1));
    if line.is_some_and(is_other_format) {
        return trouble!("line {number}: options are TOML, as key = \"id\"").hint(error.message());
    }
    if line.is_some_and(sets_other_truth) {
        return trouble!("line {number}: write true or false").hint(error.message());
    }
    if line.is_some_and(lacks_quotes) {
        return trouble!("line {number}: put text in quotes, as in key = \"id\"").hint(
            error.message(),
        );
    }
    trouble!("line {number}: {}", error.message())
}

/// Reads the settings in the file `path`. Options that the command line `given` overrides are left
/// out. Fails if the file can't be read, is not TOML, or has a wrong setting.
fn read_config(rt: &HostRuntime, path: &str, given: &[String]) -> Result<Config> {
    let text = fs::read_to_string(rt, path)?;
    match toml::table_from_str(rt.alloc(), &text) {
        Ok(table) => config_of(rt.alloc(), &table, given),
        Err(error) => Err(no_table(&text, &error)),
    }
}

/// Returns whether the command in the command line `words` accepts `--config`. Only `dunkelva
/// schema` does not.
fn takes_file(words: &[String]) -> bool {
    match words.get(1) {
        Some(command) => command.as_str() != "schema",
        None => true,
    }
}

/// Reads the config file that the command line `words` names with `--config`. Options that the
/// command line overrides are left out. Returns empty settings if no file is named.
///
/// Fails if the command does not accept `--config`, or if the file can't be read, is not TOML, or
/// has a wrong setting. In the latter cases the error names the file.
pub fn config_for(rt: &HostRuntime, words: &[String]) -> Result<Config> {
    let Some(path) = file_given(words) else {
        return Ok(Config {
            words: Vec::new(rt.alloc()),
            left: None,
            right: None,
        });
    };
    if !takes_file(words) {
        return Err(trouble!("schema takes no --{CONFIG}"));
    }
    match read_config(rt, path, words) {
        Ok(config) => Ok(config),
        Err(error) => Err(error.context(path)),
    }
}

/// Returns whether `error` is about an option that the config file sets: whether the beginning of
/// its message, up to the first colon and blank, has a word such as `--key` that names such an
/// option.
fn is_of_file(error: &Error, config: &Config) -> bool {
    for word in error.subject().split(' ') {
        if let Some(option) = word.strip_prefix("--") {
            if is_given(&config.words, option) {
                return true;
            }
        }
    }
    false
}

/// Adds the name of the config file to `error` if it names no file yet, and is about an option that
/// the config file sets. Returns other errors unchanged. `words` is the command line, and `config`
/// has the settings of the config file.
pub fn with_file(error: Error, config: &Config, words: &[String]) -> Error {
    match file_given(words) {
        Some(path) if error.file().is_none() && is_of_file(&error, config) => error.context(path),
        _ => error,
    }
}

/// Returns the arguments of the command line `words`, with the arguments `set` inserted after the
/// command, which has index 1. If there is no command, `set` is left out.
pub fn joined<'a>(
    alloc: Global,
    words: &'a [String],
    set: &'a [String],
) -> Result<Vec<&'a str>, AllocError> {
    let mut all = Vec::new(alloc);
    for i in 0..words.len() {
        all.push(words[i].as_str())?;
        if i == 1 {
            for word in set {
                all.push(word.as_str())?;
            }
        }
    }
    Ok(all)
}

/// Returns the names of the left and the right input file. `first` and `second` are the names on
/// the command line. Two names there override the names in the config file. If the command line has
/// one name, the config file has to set exactly one of `left` and `right`, and the name on the
/// command line is the other. If it has none, the config file has to set both. Fails in all other
/// cases.
pub fn named_files<'a>(
    first: Option<&'a str>,
    second: Option<&'a str>,
    config: &'a Config,
) -> Result<(&'a str, &'a str)> {
    let set = (
        config.left.as_ref().map(String::as_str),
        config.right.as_ref().map(String::as_str),
    );
    match (first, second, set) {
        (Some(left), Some(right), _) => Ok((left, right)),
        (None, _, (Some(left), Some(right))) => Ok((left, right)),
        (Some(right), None, (Some(left), None)) => Ok((left, right)),
        (Some(left), None, (None, Some(right))) => Ok((left, right)),
        (Some(file), None, (Some(_), Some(_))) => Err(trouble!(
            "two files are compared: {file:?} is a third one beside those that --config sets"
        )),
        _ => Err(trouble!("two files are compared: give LEFT and RIGHT")),
    }
}
