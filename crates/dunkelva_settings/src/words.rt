//! The settings for tables and for the report.

use crate::keys::refuse_repeated;
use crate::kinds::usual_delimiter;
use clap::ArgMatches;
use clap::parser::ValueSource;
use diff_csv::options::{CsvOptions, is_delimiter};
use diff_words::formats::Format;
use dunkelva_messages::error::Result;
use dunkelva_messages::names::quoted;
use dunkelva_messages::trouble;
use dunkelva_options::lists::split_lists;
use std::alloc::{AllocError, Global};
use std::env;
use std::env::VarError;
use std::io::IsTerminal;

/// The names of columns that the options give, as bytes.
#[derive(Drop)]
pub struct Names<'a> {
    /// The key columns, as `--key` gives them.
    pub keys: Vec<&'a [u8]>,
    /// The columns to compare, as `--only` gives them. Empty if `--only` is not given.
    pub only: Vec<&'a [u8]>,
    /// The columns that are not compared, as `--ignore` gives them.
    pub ignored: Vec<&'a [u8]>,
    /// The columns to compare as text even with `--numbers`, as `--text` gives them.
    pub texts: Vec<&'a [u8]>,
}

/// Returns `name` without the quotes around it, or unchanged if it is not in quotes.
pub(crate) fn unquoted(name: &str) -> &str {
    match name.strip_prefix('"') {
        Some(rest) => rest.strip_suffix('"').unwrap_or(name),
        None => name,
    }
}

/// Appends the names in the comma-separated list `list` to `names`, without the quotes around them.
/// A comma within quotes is part of a name.
fn push_quoted<'a>(
    names: &mut Vec<&'a [u8]>,
    alloc: Global,
    list: &'a str,
) -> Result<(), AllocError> {
    for name in &split_lists(alloc, &[list])? {
        names.push(unquoted(name).as_bytes())?;
    }
    Ok(())
}

/// Appends the names in the comma-separated list `list` to `names`. If a quote stands at the
/// beginning of `list` or directly after a comma, quotes around names are removed, and a comma
/// within quotes is part of a name. Otherwise `list` is split at every comma.
fn push_list<'a>(
    names: &mut Vec<&'a [u8]>,
    alloc: Global,
    list: &'a str,
) -> Result<(), AllocError> {
    if list.starts_with('"') || list.contains(",\"") {
        return push_quoted(names, alloc, list);
    }
    for name in list.split(',') {
        names.push(name.as_bytes())?;
    }
    Ok(())
}

/// Appends the names in all lists of the option named `option` to `names`.
fn push_names<'a>(
    names: &mut Vec<&'a [u8]>,
    alloc: Global,
    matches: &ArgMatches<'a>,
    option: &str,
) -> Result<(), AllocError> {
    for list in matches.get_strs(option).unwrap_or(&[]) {
        push_list(names, alloc, *list)?;
    }
    Ok(())
}

impl<'a> Names<'a> {
    /// Reads the names that the options in `matches` give, and appends them to the lists of `self`.
    /// Fails if `--key` gives a name twice.
    fn read(&mut self, alloc: Global, matches: &ArgMatches<'a>) -> Result<()> {
        push_names(&mut self.keys, alloc, matches, "key")?;
        push_names(&mut self.only, alloc, matches, "only")?;
        push_names(&mut self.ignored, alloc, matches, "ignore")?;
        push_names(&mut self.texts, alloc, matches, "text")?;
        refuse_repeated(&self.keys)
    }

    /// Returns the names that the options in `matches` give. Fails if `--key` gives a name twice.
    pub fn of(alloc: Global, matches: &ArgMatches<'a>) -> Result<Names<'a>> {
        let mut names = Names {
            keys: Vec::new(alloc),
            only: Vec::new(alloc),
            ignored: Vec::new(alloc),
            texts: Vec::new(alloc),
        };
        names.read(alloc, matches)?;
        Ok(names)
    }
}

/// Parses a byte: a single character of ASCII, `\t` for a tab, or `\x` and two hexadecimal digits.
/// Returns `None` for other texts.
fn byte_of(text: &str) -> Option<u8> {
    if let Some(digits) = text.strip_prefix("\\x")
        && digits.len() == 2
        // `from_str_radix` accepts a plus sign.
        && !digits.starts_with('+')
    {
        return u8::from_str_radix(digits, 16).ok();
    }
    match text.as_bytes() {
        b"\\t" => Some(b'\t'),
        [byte] => Some(*byte),
        _ => None,
    }
}

/// Parses the value of `--delimiter` as a byte (`byte_of`). Fails if the text is not a byte below
/// 128, or if the byte is a quote, a line feed or a carriage return.
fn delimiter_of(text: &str) -> Result<u8> {
    let Some(byte) = byte_of(text).filter(u8::is_ascii) else {
        return Err(trouble!(
            "--delimiter takes one byte, as \\t for a tab or \\x01 for the byte 1, not {}",
            quoted(text)
        ));
    };
    if !is_delimiter(byte) {
        return Err(trouble!(
            "--delimiter can be neither a quote nor the end of a line, as {text:?} is"
        ));
    }
    Ok(byte)
}

/// Returns the options for reading the CSV files named `left` and `right`. Fails if the value of
/// `--delimiter` is invalid. Without `--delimiter`, fails if the names call for different
/// delimiters (`usual_delimiter`).
pub fn csv_options(matches: &ArgMatches<'_>, left: &str, right: &str) -> Result<CsvOptions> {
    let delimiter = match matches.get_str("delimiter") {
        Some(text) => delimiter_of(text)?,
        None => usual_delimiter(left, right)?,
    };
    Ok(CsvOptions {
        delimiter,
        has_header: !matches.get_flag("no-header"),
    })
}

/// Parses the value of the option named `option` as an integer. Returns `None` if the option has no
/// value and no default. Fails if the value is not an integer from 0 on. `takes` says in the error
/// what the option takes.
fn number_of(matches: &ArgMatches<'_>, option: &str, takes: &str) -> Result<Option<usize>> {
    let Some(text) = matches.get_str(option) else {
        return Ok(None);
    };
    match text.parse::<usize>() {
        Ok(number) => Ok(Some(number)),
        Err(_) => Err(trouble!("--{option} takes {takes}, not {}", quoted(text))),
    }
}

/// The destination and the form of a report.
#[derive(Clone, Copy)]
pub enum Target<'a> {
    /// Standard output, as text or as JSON lines.
    Output,
    /// Standard output, as Markdown.
    Markdown,
    /// Standard output, in aligned columns. The number is the greatest width of a line, in columns
    /// of a terminal. The flag is `true` if there are colours.
    Aligned(usize, bool),
    /// The file of this name, as an HTML page.
    Page(&'a str),
}

/// The greatest number of differences in an HTML page if `--limit` is not given.
const MOST_IN_PAGE: usize = 10_000;

/// The least value of `--width`, in columns of a terminal.
const LEAST_WIDTH: usize = 40;

/// Returns the value of `--width`, the greatest width of a line in columns of a terminal, or `None`
/// if the option is not given. Fails if the value is not an integer, or is less than 40.
fn width_of(matches: &ArgMatches<'_>) -> Result<Option<usize>> {
    let width = number_of(matches, "width", "a whole number of columns such as 100")?;
    if let Some(width) = width
        && width < LEAST_WIDTH
    {
        return Err(trouble!("--width takes {LEAST_WIDTH} columns or more, not {width}"));
    }
    Ok(width)
}

/// Returns the destination and the form of the report, as `--width`, `--html` and `--markdown` give
/// them. Fails if the value of `--width` is invalid, or if `--width` is not given and the value of
/// `--html` is `-`.
pub fn target_of<'a>(rt: &HostRuntime, matches: &ArgMatches<'a>) -> Result<Target<'a>> {
    if let Some(width) = width_of(matches)? {
        let colored = is_colored(rt, matches);
        return Ok(Target::Aligned(width, colored));
    }
    match matches.get_str("html") {
        Some("-") => Err(trouble!(
            "--html takes the name of a file, not -: for standard output give /dev/stdout"
        )),
        Some(path) => Ok(Target::Page(path)),
        None if matches.get_flag("markdown") => Ok(Target::Markdown),
        None => Ok(Target::Output),
    }
}

/// Returns the greatest number of differences to print: 0 with `--summary`, and else the value of
/// `--limit`. For `--limit 0`, which asks for all differences, returns `usize::MAX`. Without
/// `--limit` the number is 10,000 for an HTML page, and else 20. Fails if the value of `--limit` is
/// not an integer from 0 on.
pub fn limit_of(matches: &ArgMatches<'_>) -> Result<usize> {
    let limit = number_of(matches, "limit", "a whole number such as 100, or 0 for all")?;
    if matches.get_flag("summary") {
        return Ok(0);
    }
    let is_given = matches.value_source("limit") == Some(ValueSource::CommandLine);
    if matches.contains_id("html") && !is_given {
        return Ok(MOST_IN_PAGE);
    }
    match limit {
        Some(0) => Ok(usize::MAX),
        Some(limit) => Ok(limit),
        None => Ok(20),
    }
}

/// Returns the format in which the report is made, as `--format` gives it. With `--html`,
/// `--markdown` or `--width` the format is JSON, since pages, Markdown and aligned columns are made
/// from JSON lines.
pub fn format_of(matches: &ArgMatches<'_>) -> Format {
    if matches.contains_id("html") || matches.get_flag("markdown") || matches.contains_id("width") {
        return Format::Json;
    }
    match matches.get_str("format") {
        Some("json") => Format::Json,
        _ => Format::Text,
    }
}

/// Returns whether the environment variable `NO_COLOR` is set and not empty. Returns true if memory
/// runs out.
fn asks_no_color(rt: &HostRuntime) -> bool {
    match env::var(rt, "NO_COLOR") {
        Ok(value) => !value.is_empty(),
        Err(VarError::NotPresent) => false,
        // The value is not UTF-8, and thus not empty, or there is no memory for it.
        Err(_) => true,
    }
}

/// Returns whether the report has colours, as `--color` says. By default the report has colours if
/// standard output is a terminal, unless `NO_COLOR` is set and not empty.
pub fn is_colored(rt: &HostRuntime, matches: &ArgMatches<'_>) -> bool {
    match matches.get_str("color") {
        Some("always") => true,
        Some("never") => false,
        _ => rt.stdout().is_terminal() && !asks_no_color(rt),
    }
}
