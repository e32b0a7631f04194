//! The options that are given on a command line.

use crate::options::options;

/// Returns the long name of the option whose short form is `letter`, or `None` if there is none.
fn named_by(letter: char) -> Option<&'static str> {
    for option in options() {
        if option.short == Some(letter) {
            return Some(option.id);
        }
    }
    None
}

/// Splits the command-line argument `word` into the name of its option, without hyphens, and the
/// value after an equals sign, if there is one. For a short option, returns its long name and no
/// value: a value written directly after it, as in `-kid`, is ignored.
///
/// A name after two hyphens need not be the name of an option. The argument `--` gives an empty
/// name. Returns `None` if `word` does not begin with a hyphen, or if the letter after a single
/// hyphen is not the short form of an option.
pub(crate) fn split_word(word: &str) -> Option<(&str, Option<&str>)> {
    let Some(option) = word.strip_prefix("--") else {
        let letter = word.strip_prefix('-')?.chars().next()?;
        return Some((named_by(letter)?, None));
    };
    match option.split_once('=') {
        Some((name, value)) => Some((name, Some(value))),
        None => Some((option, None)),
    }
}

/// Returns `Some(true)` if the argument `word` gives the option `id`, and `Some(false)` if it is
/// `--`, after which no option can follow. Otherwise returns `None`.
fn told_by(word: &str, id: &str) -> Option<bool> {
    match split_word(word) {
        Some(("", None)) => Some(false),
        Some((name, _)) if name == id => Some(true),
        _ => None,
    }
}

/// Returns whether the arguments `words` give the option `id`. Arguments after `--` do not count.
pub(crate) fn is_given(words: &[String], id: &str) -> bool {
    for word in words {
        if let Some(is_given) = told_by(word, id) {
            return is_given;
        }
    }
    false
}

/// Returns whether the borrowed arguments `words` give the option `id`. Arguments after `--` do not
/// count.
pub(crate) fn is_among(words: &[&str], id: &str) -> bool {
    for word in words {
        if let Some(is_given) = told_by(word, id) {
            return is_given;
        }
    }
    false
}
