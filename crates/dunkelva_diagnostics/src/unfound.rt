//! Errors and warnings about paths in options at which no document has a part. A part is a value
//! inside a document, and a path consists of steps, such as the name of a member.
//!
//! If no document has a part at the first step of any path of `--only`, no difference is found,
//! whatever the documents are: such a comparison is refused. A misspelt path of `--ignore` or of a
//! tolerance has no effect. With `--no-key-is-null`, a misspelt path of `--key` makes this part of
//! the key null in all documents. The paths at which no document has a part are reported on
//! standard error after the comparison. To find parts, the files are read again: before the
//! comparison for the refusal, and after it for the warnings. If a file can't be read again,
//! nothing is refused, and only some of the paths are reported, or none.

use clap::ArgMatches;
use dunkelva_messages::error::{Error, Result};
use dunkelva_messages::files::open_again;
use dunkelva_messages::names::quoted;
use dunkelva_messages::trouble;
use dunkelva_options::lists::split_lists;
use dunkelva_settings::keys::Keys;
use dunkelva_settings::rules::{ABSOLUTE, RELATIVE};
use json::{Scratch, Value};
use json_changes::changes::{Rules, Tolerance};
use json_paths::path::Path;
use json_paths::pattern::{Pattern, PatternStep};
use json_tolerances::closeness::Margin;
use std::alloc::{AllocError, Global};
use std::io::{BufRead, BufReader};

/// The name of the option that selects the parts to compare.
const ONLY: &str = "only";

/// A thing to look for in a document: parts that fit a pattern, parts at the pattern's first step
/// alone, or the part at a path.
#[derive(Clone, Copy)]
enum Named<'p> {
    Parts(&'p Pattern),
    Start(&'p Pattern),
    Part(&'p Path),
}

/// A path to look for: the option that gives the path, the path's text and meaning, and whether a
/// document that has a part there was found.
#[derive(Clone, Copy)]
struct Sought<'a, 'p> {
    option: &'static str,
    text: &'a str,
    named: Named<'p>,
    is_found: bool,
}

/// A search for the paths `sought` in the documents of one or two files.
#[derive(Drop)]
struct Search<'a, 'p> {
    sought: Vec<Sought<'a, 'p>>,
    /// `true` if the search is over once one of the paths is found. If `false`, it is over once all
    /// are found.
    needs_one: bool,
    /// `true` if a line with a JSON object was read.
    has_documents: bool,
}

/// The second of the two files, after a first one that can be read again.
#[derive(Clone, Copy)]
enum Second<'f> {
    /// The name of a file that can be read again.
    Stored(&'f str),
    /// The name of an input that can't be read again, such as a pipe.
    Gone(&'f str),
}

/// Appends to `parts` the parts of `value` to which `step` leads: at most one part, or all items of
/// an array. Appends nothing if the step leads nowhere.
fn push_inside<'v, 'a>(
    parts: &mut Vec<&'v Value<'a>>,
    step: &PatternStep,
    value: &'v Value<'a>,
) -> Result<(), AllocError> {
    match (step, value) {
        (PatternStep::Exactly(step), _) => {
            if let Some(part) = step.part_of(value) {
                parts.push(part)?;
            }
        }
        (PatternStep::AnyItem, Value::Array(items)) => {
            for item in items {
                parts.push(item)?;
            }
        }
        _ => {}
    }
    Ok(())
}

/// Returns whether `document` has a part that fits `pattern`.
fn has_part(alloc: Global, pattern: &Pattern, document: &Value<'_>) -> Result<bool, AllocError> {
    let mut parts = Vec::new(alloc);
    parts.push(document)?;
    for step in &pattern.steps {
        let mut inner = Vec::new(alloc);
        for i in 0..parts.len() {
            push_inside(&mut inner, step, parts[i])?;
        }
        parts = inner;
    }
    Ok(!parts.is_empty())
}

/// Returns whether `document` has a part at the first step of `pattern`. A pattern without steps
/// gives true.
fn has_start(alloc: Global, pattern: &Pattern, document: &Value<'_>) -> Result<bool, AllocError> {
    let Some(step) = pattern.steps.first() else {
        return Ok(true);
    };
    let mut parts = Vec::new(alloc);
    push_inside(&mut parts, step, document)?;
    Ok(!parts.is_empty())
}

impl Named<'_> {
    /// Returns whether `document` has a part that is looked for.
    fn is_in(self, alloc: Global, document: &Value<'_>) -> Result<bool, AllocError> {
        match self {
            Named::Parts(pattern) => has_part(alloc, pattern, document),
            Named::Start(pattern) => has_start(alloc, pattern, document),
            Named::Part(path) => Ok(path.part_of(document).is_some()),
        }
    }
}

/// Appends the paths in the lists of the option named `option` to `sought`. `patterns` are the
/// patterns parsed from these paths, in the same order.
fn push_patterns<'a, 'p>(
    sought: &mut Vec<Sought<'a, 'p>>,
    alloc: Global,
    matches: &ArgMatches<'a>,
    option: &'static str,
    patterns: &'p [Pattern],
) -> Result<(), AllocError> {
    let texts = split_lists(alloc, matches.get_strs(option).unwrap_or(&[]))?;
    for (text, pattern) in texts.iter().zip(patterns) {
        sought.push(Sought {
            option,
            text: *text,
            named: Named::Parts(pattern),
            is_found: false,
        })?;
    }
    Ok(())
}

/// Returns the path in the text of a tolerance, such as `price` in `price=0.01`: the text before
/// the last equals sign, or all of it if there is none.
fn path_in(text: &str) -> &str {
    match text.rsplit_once('=') {
        Some((path, _)) => path,
        None => text,
    }
}

/// Returns the name of the option that gives `tolerance`: `ABSOLUTE` or `RELATIVE`.
fn option_of(tolerance: &Tolerance) -> &'static str {
    match tolerance.margin {
        Margin::Absolute(_) => ABSOLUTE,
        Margin::Relative(_) => RELATIVE,
    }
}

/// Appends the paths of `--tolerance` and `--relative-tolerance` to `sought`. `tolerances` are the
/// tolerances parsed from the values of these options, in this order.
fn push_tolerances<'a, 'p>(
    sought: &mut Vec<Sought<'a, 'p>>,
    alloc: Global,
    matches: &ArgMatches<'a>,
    tolerances: &'p [Tolerance],
) -> Result<(), AllocError> {
    let mut texts = split_lists(alloc, matches.get_strs(ABSOLUTE).unwrap_or(&[]))?;
    for text in &split_lists(alloc, matches.get_strs(RELATIVE).unwrap_or(&[]))? {
        texts.push(*text)?;
    }
    for (text, tolerance) in texts.iter().zip(tolerances) {
        sought.push(Sought {
            option: option_of(tolerance),
            text: path_in(*text),
            named: Named::Parts(&tolerance.pattern),
            is_found: false,
        })?;
    }
    Ok(())
}

/// Appends the paths of `--key` to `sought`. `paths` are the paths parsed from its lists, in the
/// same order.
fn push_keys<'a, 'p>(
    sought: &mut Vec<Sought<'a, 'p>>,
    alloc: Global,
    matches: &ArgMatches<'a>,
    paths: &'p [Path],
) -> Result<(), AllocError> {
    let texts = split_lists(alloc, matches.get_strs("key").unwrap_or(&[]))?;
    for (text, path) in texts.iter().zip(paths) {
        sought.push(Sought {
            option: "key",
            text: *text,
            named: Named::Part(path),
            is_found: false,
        })?;
    }
    Ok(())
}

/// Returns the paths to look for. If `second` can't be read again, these are only the paths of
/// `--only`. Otherwise they are also those of `--ignore` and of the tolerances, and with
/// `--no-key-is-null` those of `--key`. Without `--no-key-is-null`, a document that lacks a part of
/// the key is an error of the comparison, or is skipped with `--skip-bad`.
fn sought_in<'a, 'p>(
    alloc: Global,
    matches: &ArgMatches<'a>,
    keys: &'p [Path],
    rules: &'p Rules,
    second: Second<'_>,
) -> Result<Vec<Sought<'a, 'p>>, AllocError> {
    let mut sought = Vec::new(alloc);
    push_patterns(&mut sought, alloc, matches, ONLY, &rules.only)?;
    if let Second::Gone(_) = second {
        return Ok(sought);
    }
    push_patterns(&mut sought, alloc, matches, "ignore", &rules.ignored)?;
    push_tolerances(&mut sought, alloc, matches, &rules.tolerances)?;
    if matches.get_flag("no-key-is-null") {
        push_keys(&mut sought, alloc, matches, keys)?;
    }
    Ok(sought)
}

impl Search<'_, '_> {
    /// Parses `line` as a document, and marks the paths at which the document has a part as found.
    /// Ignores a line that is not UTF-8 or not a JSON object. Fails if memory runs out.
    fn read_line(&mut self, alloc: Global, line: &[u8]) -> Result<(), AllocError> {
        let Ok(text) = str::from_utf8(line) else {
            return Ok(());
        };
        let mut scratch = Scratch::new(alloc);
        let document = match Value::parse(alloc, text, &mut scratch) {
            Ok(document) => document,
            Err(json::Error::OutOfMemory) => return Err(AllocError),
            Err(_) => return Ok(()),
        };
        if !matches!(document, Value::Object(_)) {
            return Ok(());
        }
        self.has_documents = true;
        for i in 0..self.sought.len() {
            if let Some(sought) = self.sought.get_mut(i) {
                sought.is_found = sought.is_found || sought.named.is_in(alloc, &document)?;
            }
        }
        Ok(())
    }

    /// Returns whether at least one path was found.
    fn has_found(&self) -> bool {
        self.sought.iter().any(|sought| sought.is_found)
    }

    /// Returns whether the search is over: all paths were found, or one if `needs_one` is true.
    fn is_over(&self) -> bool {
        if self.needs_one {
            return self.has_found();
        }
        self.sought.iter().all(|sought| sought.is_found)
    }

    /// Opens the regular file `file`, apart from the comparison, and searches its lines for the
    /// paths until the search is over. Returns `None` if `file` isn't a regular file, if it can't
    /// be opened or read, or if memory runs out.
    fn search_file(&mut self, rt: &HostRuntime, file: &str) -> Option<()> {
        let source = open_again(rt, file)?;
        let reader = BufReader::new(rt.alloc(), source).ok()?;
        for line in reader.split(rt.alloc(), b'\n') {
            let line = line.ok()?;
            self.read_line(rt.alloc(), &line).ok()?;
            if self.is_over() {
                break;
            }
        }
        Some(())
    }

    /// Searches the file `first` for the paths, and then `second`, if it can be read again and the
    /// search is not over. Returns `None` if a file to search can't be read, or if memory runs out.
    fn search_files(&mut self, rt: &HostRuntime, first: &str, second: Second<'_>) -> Option<()> {
        self.search_file(rt, first)?;
        match second {
            Second::Stored(file) if !self.is_over() => self.search_file(rt, file),
            _ => Some(()),
        }
    }
}

/// Prints a warning on standard error that no document has a part at the path `sought`. If `second`
/// was not searched, the warning names the file `first`, and says that the other one was not
/// searched.
fn warn(rt: &HostRuntime, sought: Sought<'_, '_>, first: &str, second: Second<'_>) {
    let (option, text) = (sought.option, sought.text);
    let _ = match second {
        Second::Stored(_) => eprintln!(rt;
            "dunkelva: warning: --{option}: no document has a part at {text:?}"
        ),
        Second::Gone(file) => {
            let file = if file == "-" { "standard input" } else { file };
            eprintln!(rt;
                "dunkelva: warning: --{option}: no document of {first} has a part at {text:?}; \
                 {file} was not looked at again"
            )
        }
    };
}

/// Returns the files `left` and `right` in the order in which they are searched: a file that can be
/// read again comes first. Returns `None` if neither can be read again.
fn in_order<'f>(rt: &HostRuntime, left: &'f str, right: &'f str) -> Option<(&'f str, Second<'f>)> {
    match (
        open_again(rt, left).is_some(),
        open_again(rt, right).is_some(),
    ) {
        (true, true) => Some((left, Second::Stored(right))),
        (true, false) => Some((left, Second::Gone(right))),
        (false, true) => Some((right, Second::Gone(left))),
        (false, false) => None,
    }
}

/// Searches the files `left` and `right` for the paths in the options, and prints a warning for
/// each path at which no document has a part. `keys` and `rules` are parsed from the options.
/// Prints nothing if the searched files have no documents. Returns `None` if there is nothing to
/// search for, if a file to search can't be read, or if memory runs out.
fn search_and_warn(
    rt: &HostRuntime,
    matches: &ArgMatches<'_>,
    keys: &[Path],
    rules: &Rules,
    left: &str,
    right: &str,
) -> Option<()> {
    let (first, second) = in_order(rt, left, right)?;
    let sought = sought_in(rt.alloc(), matches, keys, rules, second).ok()?;
    if sought.is_empty() {
        return None;
    }
    let mut search = Search {
        sought,
        needs_one: false,
        has_documents: false,
    };
    search.search_files(rt, first, second)?;
    for sought in &search.sought {
        if search.has_documents && !sought.is_found {
            warn(rt, *sought, first, second);
        }
    }
    Some(())
}

/// Appends the patterns of `--only` to `sought`, to be looked for by their first steps. `patterns`
/// are the patterns parsed from the lists of `--only`, in the same order.
fn push_starts<'a, 'p>(
    sought: &mut Vec<Sought<'a, 'p>>,
    alloc: Global,
    matches: &ArgMatches<'a>,
    patterns: &'p [Pattern],
) -> Result<(), AllocError> {
    let texts = split_lists(alloc, matches.get_strs(ONLY).unwrap_or(&[]))?;
    for (text, pattern) in texts.iter().zip(patterns) {
        sought.push(Sought {
            option: ONLY,
            text: *text,
            named: Named::Start(pattern),
            is_found: false,
        })?;
    }
    Ok(())
}

/// Searches the files `left` and `right` for the first steps of the paths of `--only`, which
/// `rules` has. Returns an error if there are documents, and none has a part at any of these steps.
/// Otherwise, or if a file can't be read again, or if memory runs out, returns `None`.
fn unknown_only(
    rt: &HostRuntime,
    matches: &ArgMatches<'_>,
    rules: &Rules,
    left: &str,
    right: &str,
) -> Option<Error> {
    let (first, second) = in_order(rt, left, right)?;
    if let Second::Gone(_) = second {
        return None;
    }
    let mut sought = Vec::new(rt.alloc());
    push_starts(&mut sought, rt.alloc(), matches, &rules.only).ok()?;
    let mut search = Search {
        sought,
        needs_one: true,
        has_documents: false,
    };
    search.search_files(rt, first, second)?;
    if search.has_found() || !search.has_documents {
        return None;
    }
    let path = search.sought.first()?.text;
    if search.sought.len() > 1 {
        return Some(trouble!("--{ONLY}: no document has a part at one of these paths"));
    }
    Some(trouble!("--{ONLY}: no document has a part at {}", quoted(path)))
}

/// Fails if no document of the files `left` and `right` has a part at the first step of any path of
/// `--only`, so that nothing would be compared. Does not fail if `--only` is not given, if there
/// are no documents, or if a file can't be read again, since the part may be in that file. `rules`
/// is parsed from the options.
pub fn refuse_unknown_only(
    rt: &HostRuntime,
    matches: &ArgMatches<'_>,
    rules: &Rules,
    left: &str,
    right: &str,
) -> Result<()> {
    if rules.only.is_empty() {
        return Ok(());
    }
    match unknown_only(rt, matches, rules, left, right) {
        Some(error) => Err(error),
        None => Ok(()),
    }
}

/// Prints a warning for each path of `--only`, `--ignore` and the tolerances at which no document
/// of the files `left` and `right` has a part. With `--no-key-is-null`, does so for the paths of
/// `--key` too. If only one file can be read again, looks only for the paths of `--only`, in that
/// file. Prints nothing if neither file can be read again, if the searched files have no documents,
/// or if the search fails.
pub fn warn_of_unknown(
    rt: &HostRuntime,
    matches: &ArgMatches<'_>,
    keys: &Keys<'_>,
    rules: &Rules,
    left: &str,
    right: &str,
) {
    let is_plain = rules.only.is_empty() && rules.ignored.is_empty() && rules.tolerances.is_empty();
    if is_plain && !matches.get_flag("no-key-is-null") {
        return;
    }
    let _ = search_and_warn(rt, matches, &keys.paths, rules, left, right);
}
