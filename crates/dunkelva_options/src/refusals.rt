//! Advice after errors of the command line.

use crate::given::is_among;
use crate::options::{find_option, options};
use clap::error::ErrorKind;
use std::alloc::{AllocError, Global};
use std::fs;

/// Returns advice for `form`, a value that `--format` does not accept: the option that writes this
/// format. Returns `None` if no option does.
pub(crate) fn form_advice(form: &str) -> Option<&'static str> {
    match form {
        "markdown" | "md" => Some("for Markdown give --markdown"),
        "html" => Some("for a page give --html FILE"),
        _ => None,
    }
}

/// Returns advice for the value that the arguments `words` give to `--format`, or `None` if
/// `form_advice` has none for it.
fn format_advice(words: &[&str]) -> Option<&'static str> {
    let mut is_behind = false;
    for word in words {
        let form = if is_behind {
            Some(*word)
        } else {
            word.strip_prefix("--format=")
        };
        if let Some(advice) = form_advice(form.unwrap_or("")) {
            return Some(advice);
        }
        is_behind = *word == "--format";
    }
    None
}

/// Returns advice if the argument at index 1 of `words`, which should be a command, seems to be the
/// name of a file: if there is such a file, or if the next argument is no option. Otherwise, or if
/// there is no such argument, returns `None`.
fn command_advice(rt: &HostRuntime, words: &[&str]) -> Option<&'static str> {
    let first = words.get(1)?;
    let is_followed = words.get(2).is_some_and(|word| !word.starts_with('-'));
    if !is_followed {
        fs::metadata(rt, *first).ok()?;
    }
    Some("to compare two files: dunkelva diff LEFT RIGHT")
}

/// Advice for options such as `--quiet`. This and the following constants, up to `ALIGNED`, say
/// what to give in place of options of other programs.
const STATUS: &str = "for the status alone send what is printed to /dev/null";

const JSON: &str = "for JSON give --format json";

const OUTPUT: &str = "the report is printed: write > FILE";

const DELIMITER: &str = "for the delimiter give --delimiter";

const DOCUMENTS: &str = "for JSON documents, one in each line, give --input ndjson";

const KEY: &str = "for the key give --key";

const ONLY: &str = "for the columns to compare give --only";

const IGNORE: &str = "for columns to leave out give --ignore";

const LIMIT: &str = "to print the first N differences give --limit N";

const ALL: &str = "to print all differences give --limit 0";

const COUNTS: &str = "for the counts alone give --summary";

const TOLERANCE: &str = "for a tolerance give --tolerance COLUMN=BOUND";

const RELATIVE: &str = "for a relative tolerance give --relative-tolerance COLUMN=BOUND";

const TEXTS: &str = "texts are compared exactly, with case and blanks: convert the files first";

const ORDER: &str = "rows may be in any order; the items of JSON arrays are compared in theirs";

const NAMES: &str =
    "rename the columns of one file before, as in <(sed '1s/OLD/NEW/' FILE) in place of FILE";

const ALIGNED: &str = "for aligned columns give --width N";

/// Options of other programs, each with advice on what to give `dunkelva diff` or `dunkelva schema`
/// instead.
const OTHERS: [(&str, &str); 18] = [
    ("--json", JSON),
    ("-f", JSON),
    ("--output-format", JSON),
    ("--quiet", STATUS),
    ("-q", STATUS),
    ("--fs", DELIMITER),
    ("--sep", DELIMITER),
    ("--separator", DELIMITER),
    ("--delim", DELIMITER),
    ("--tsv", "for tabs give --delimiter '\\t'"),
    ("--csv", "for CSV give --input csv"),
    ("--ndjson", DOCUMENTS),
    ("--jsonl", DOCUMENTS),
    (
        "--header",
        "the first record is the header unless --no-header is given",
    ),
    (
        "--encoding",
        "files are compared as bytes: convert with iconv",
    ),
    ("--output", OUTPUT),
    ("--out", OUTPUT),
    ("-o", OUTPUT),
];

/// Options of other programs, each with advice on what to give `dunkelva diff` instead. For
/// `dunkelva schema` this advice is not given.
const OTHERS_OF_DIFF: [(&str, &str); 60] = [
    ("--id", KEY),
    ("--on", KEY),
    ("--by", KEY),
    ("--pk", KEY),
    ("--primary", KEY),
    ("--primary-key", KEY),
    ("--keys", KEY),
    ("--index", KEY),
    ("--join", KEY),
    ("--join-columns", KEY),
    ("--columns", ONLY),
    ("--fields", ONLY),
    ("--select", ONLY),
    ("--include", ONLY),
    ("--cols", ONLY),
    ("--exclude", IGNORE),
    ("--skip", IGNORE),
    ("--drop", IGNORE),
    ("--ignore-columns", IGNORE),
    ("--head", LIMIT),
    ("--max", LIMIT),
    ("--max-rows", LIMIT),
    ("--rows", LIMIT),
    ("-n", LIMIT),
    ("--all", ALL),
    ("--show-all", ALL),
    ("--count", COUNTS),
    ("--counts", COUNTS),
    ("--stat", COUNTS),
    ("--stats", COUNTS),
    ("--brief", COUNTS),
    ("--epsilon", TOLERANCE),
    ("--eps", TOLERANCE),
    ("--precision", TOLERANCE),
    ("--round", TOLERANCE),
    ("--abs-tol", TOLERANCE),
    ("--abs_tol", TOLERANCE),
    ("--atol", TOLERANCE),
    ("--rel-tol", RELATIVE),
    ("--rel_tol", RELATIVE),
    ("--rtol", RELATIVE),
    ("--ignore-case", TEXTS),
    ("--case-insensitive", TEXTS),
    ("-i", TEXTS),
    ("--trim", TEXTS),
    ("--strip", TEXTS),
    ("--ignore-spaces", TEXTS),
    ("--ignore-whitespace", TEXTS),
    ("--ignore-all-space", TEXTS),
    ("--ignore-space-change", TEXTS),
    ("-w", TEXTS),
    ("-b", TEXTS),
    ("--ignore-order", ORDER),
    ("--unordered", ORDER),
    ("--side-by-side", ALIGNED),
    ("-y", ALIGNED),
    ("--align", ALIGNED),
    (
        "--no-color",
        "for a report without colours give --color never",
    ),
    ("--rename", NAMES),
    ("--map", NAMES),
];

/// Returns the part of the argument `word` before its first equals sign, or all of `word` if it has
/// none.
fn option_in(word: &str) -> &str {
    match word.split_once('=') {
        Some((option, _)) => option,
        None => word,
    }
}

/// Returns the advice for the first of the arguments `words` that is an option in `others`, or
/// `None` if there is none. A value after an equals sign does not count. Each pair in `others` is
/// an option and its advice.
fn advice_in(words: &[&str], others: &[(&str, &'static str)]) -> Option<&'static str> {
    for word in words {
        for (option, advice) in others {
            if option_in(*word) == *option {
                return Some(*advice);
            }
        }
    }
    None
}

/// Returns the advice that `OTHERS_OF_DIFF` has for the option `name` of another program, or `None`
/// if it has none. `name` has no hyphens at its beginning.
pub(crate) fn advice_of_name(name: &str) -> Option<&'static str> {
    for (option, advice) in &OTHERS_OF_DIFF {
        if option.strip_prefix("--") == Some(name) {
            return Some(*advice);
        }
    }
    None
}

/// Returns the name of the option that `word` has after a single hyphen, as `key` in `-key` or
/// `-key=id`. Returns `None` if `word` has no hyphen at its beginning, or if there is no such
/// option.
fn after_one_hyphen(word: &str) -> Option<&'static str> {
    let option = find_option(option_in(word.strip_prefix('-')?))?;
    Some(option.id)
}

/// Returns the advice to write two hyphens, for the first of the arguments `words` that is the name
/// of an option after a single hyphen. Returns `None` if there is none or an allocation fails.
fn hyphen_advice(alloc: Global, words: &[&str]) -> Option<String> {
    for word in words {
        if let Some(id) = after_one_hyphen(*word) {
            return format!(in alloc; "write two hyphens: --{id}").ok();
        }
    }
    None
}

/// Returns the advice to separate columns by commas if two arguments follow the first `--key` or
/// `-k` in `words`, neither begins with a hyphen, and the second is not the name of a file.
/// Otherwise, or if an allocation fails, returns `None`.
fn list_advice(rt: &HostRuntime, words: &[&str]) -> Option<String> {
    let at = words
        .iter()
        .position(|word| *word == "--key" || *word == "-k")?;
    let rest = words.get(at..)?;
    let (first, second) = (*rest.get(1)?, *rest.get(2)?);
    if first.starts_with('-') || second.starts_with('-') || fs::metadata(rt, second).is_ok() {
        return None;
    }
    format!(in rt.alloc(); "separate columns by commas: --key {first},{second}").ok()
}

/// Returns advice for an argument in `words` that is an option of another program, or else for one
/// that has a single hyphen in place of two. For `dunkelva schema`, only the options in `OTHERS`
/// have advice. Returns `None` if there is no advice, or an allocation fails.
fn other_advice(alloc: Global, words: &[&str]) -> Option<String> {
    if let Some(advice) = advice_in(words, &OTHERS) {
        return String::from_str(alloc, advice).ok();
    }
    if words.get(1) == Some(&"schema") {
        return None;
    }
    match advice_in(words, &OTHERS_OF_DIFF) {
        Some(advice) => String::from_str(alloc, advice).ok(),
        None => hyphen_advice(alloc, words),
    }
}

/// Returns the advice `--a needs --b` for the first option `a` that the arguments `words` give
/// without the option `b`, which it needs. Returns `None` if no option is missing, or if an
/// allocation fails.
fn needs_advice(alloc: Global, words: &[&str]) -> Option<String> {
    for option in options() {
        for other in option.needs {
            if is_among(words, option.id) && !is_among(words, *other) {
                return format!(in alloc; "--{} needs --{other}", option.id).ok();
            }
        }
    }
    None
}

/// Returns advice for the command line `words`, which the parser refused with an error of kind
/// `kind`. Returns `None` if there is no advice, or an allocation fails.
pub fn advice_for(rt: &HostRuntime, words: &[&str], kind: ErrorKind) -> Option<String> {
    let advice = match kind {
        ErrorKind::InvalidSubcommand => command_advice(rt, words)?,
        ErrorKind::InvalidValue => format_advice(words)?,
        ErrorKind::UnknownArgument => {
            return other_advice(rt.alloc(), words).or(list_advice(rt, words));
        }
        ErrorKind::MissingRequiredArgument => return needs_advice(rt.alloc(), words),
        _ => return None,
    };
    String::from_str(rt.alloc(), advice).ok()
}

/// Returns the lines of `text`, a parser's error, before its first empty line. The caller prints
/// advice in place of the rest, since the parser's own tip could mislead.
pub fn reason_in(alloc: Global, text: &str) -> Result<String, AllocError> {
    let mut reason = String::new(alloc);
    for line in text.lines() {
        if line.is_empty() {
            break;
        }
        reason.push_str(line)?;
        reason.push_str("\n")?;
    }
    Ok(reason)
}

/// Returns `text`, a parser's error, without the tip to pass an option as a value. Of several empty
/// lines in a row, only the first is kept, also if the tip was between them.
pub fn without_tip(alloc: Global, text: &str) -> Result<String, AllocError> {
    let mut kept = String::new(alloc);
    let mut is_behind_empty = false;
    for line in text.lines() {
        let is_doubled = is_behind_empty && line.is_empty();
        if !line.starts_with("  tip: to pass '") && !is_doubled {
            kept.push_str(line)?;
            kept.push_str("\n")?;
            is_behind_empty = line.is_empty();
        }
    }
    Ok(kept)
}
