//! The key of documents, as `--key` gives it.

ghost use Rattle.std.specs.Prelude.{◌≡◌, length};

use crate::rules::no_path;
use clap::ArgMatches;
use dunkelva_messages::error::{Error, Result};
use dunkelva_messages::names::quoted;
use dunkelva_messages::trouble;
use dunkelva_options::lists::split_lists;
use json_paths::error::PathError;
use json_paths::parse::parse_path;
use json_paths::path::Path;
use std::alloc::Global;

/// The key of documents: the paths to the parts of a document that form its key.
#[derive(Drop)]
pub struct Keys<'a> {
    /// The parsed paths.
    pub paths: Vec<Path>,
    /// The texts of the paths, in the same order, as `--key` gives them. Reports use these texts as
    /// names.
    pub names: Vec<&'a [u8]>,
    ghost paired: { length names.items ≡ length paths.items },
}

/// Fails if a name occurs twice in `keys`, the names that `--key` gives.
pub(crate) fn refuse_repeated(keys: &[&[u8]]) -> Result<()> {
    for i in 0..keys.len() {
        if keys[..i].contains(&keys[i]) {
            let name = str::from_utf8(keys[i]).unwrap_or("-");
            return Err(trouble!("--key has {} twice", quoted(name)));
        }
    }
    Ok(())
}

/// Returns the error to print for `word`, a text in `--key` that could not be parsed as a path.
/// `error` is the parser's error. If `error` is `Invalid` and `word` has `[]`, a hint says that a
/// key path names a single part.
fn no_key(error: PathError, word: &str) -> Error {
    let is_list = matches!(error, PathError::Invalid) && word.contains("[]");
    let error = no_path(error, "key", "items[0].sku", word);
    if is_list {
        return error.hint("a key path names one part, so no []");
    }
    error
}

/// Parses `word` as a path of the key. Fails if it is not a path.
fn path_of(alloc: Global, word: &str) -> Result<Path> {
    match parse_path(alloc, word) {
        Ok(path) => Ok(path),
        Err(error) => Err(no_key(error, word)),
    }
}

/// Parses each of `words` as a path, and returns the key with these paths. Fails if one of `words`
/// is not a path, or occurs twice.
fn keys_in<'a>(alloc: Global, words: &[&'a str]) -> Result<Keys<'a>> {
    let mut paths = Vec::new(alloc);
    let mut names = Vec::new(alloc);
    for word in words {
        paths.push(path_of(alloc, word)?)?;
        names.push(word.as_bytes())?;
    }
    refuse_repeated(&names)?;
    Ok(Keys { paths, names })
}

/// Returns the key that `--key` gives, or a key without paths if the option is not given. Fails if
/// a text in a list of `--key` is not a path, or occurs twice.
pub fn keys_of<'a>(alloc: Global, matches: &ArgMatches<'a>) -> Result<Keys<'a>> {
    let words = split_lists(alloc, matches.get_strs("key").unwrap_or(&[]))?;
    keys_in(alloc, &words)
}
