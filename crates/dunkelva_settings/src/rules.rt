//! The rules for comparing documents, as `--only`, `--ignore`, `--missing-is-null` and the options
//! for tolerances give them.

use clap::ArgMatches;
use dunkelva_messages::error::{Error, Result};
use dunkelva_messages::names::quoted;
use dunkelva_messages::trouble;
use dunkelva_options::lists::split_lists;
use json_changes::changes::{Rules, Tolerance};
use json_paths::error::PathError;
use json_paths::parse::parse_pattern;
use json_paths::pattern::Pattern;
use json_tolerances::bounds::Bound;
use json_tolerances::closeness::Margin;
use json_tolerances::error::BoundError;
use json_tolerances::order::is_less;
use std::alloc::Global;

/// The name of the option for absolute tolerances. Two numbers may differ by at most the bound.
pub const ABSOLUTE: &str = "tolerance";

/// The name of the option for relative tolerances. Two numbers may differ by at most the bound
/// times the larger of their absolute values.
pub const RELATIVE: &str = "relative-tolerance";

/// Returns the error to print for `word`, a text in the option named `option` that could not be
/// parsed as a path. `error` is the parser's error. `example` is a path that the option accepts.
pub(crate) fn no_path(error: PathError, option: &str, example: &str, word: &str) -> Error {
    match error {
        PathError::Memory => trouble!("out of memory"),
        PathError::Invalid => trouble!(
            "--{option} takes paths such as order.id or {example}, not {}",
            quoted(word)
        ),
    }
}

/// Parses `word`, a text in the option named `option`, as a pattern: a path that may have `[]`, for
/// any item. Fails if `word` is not a pattern.
fn pattern_of(alloc: Global, option: &str, word: &str) -> Result<Pattern> {
    match parse_pattern(alloc, word) {
        Ok(pattern) => Ok(pattern),
        Err(error) => Err(no_path(error, option, "items[].price", word)),
    }
}

/// Parses the patterns in the comma-separated lists of the option named `option`, and appends them
/// to `patterns`. Fails if a text in a list is not a pattern.
fn push_patterns(
    patterns: &mut Vec<Pattern>,
    alloc: Global,
    matches: &ArgMatches<'_>,
    option: &str,
) -> Result<()> {
    let words = split_lists(alloc, matches.get_strs(option).unwrap_or(&[]))?;
    for word in &words {
        patterns.push(pattern_of(alloc, option, word)?)?;
    }
    Ok(())
}

/// Returns the number before the percent sign at the end of `word`, such as `2.5` for `2.5%`.
/// Returns `None` if `word` does not end with a percent sign, or if the text before the sign is not
/// a valid bound or has an exponent, since the hint appends `e-2` to it.
fn without_percent(word: &str) -> Option<&str> {
    let number = word.strip_suffix('%')?;
    let is_plain = !number.contains(['e', 'E']) && Bound::read(number).is_ok();
    is_plain.then_some(number)
}

/// Returns whether a text is a point and one or more digits after it, such as `.5`.
fn lacks_zero(word: &str) -> bool {
    match word.strip_prefix('.') {
        Some(rest) => is_digits(rest),
        None => false,
    }
}

/// Returns whether a text consists of one or more digits.
fn is_digits(text: &str) -> bool {
    !text.is_empty() && text.bytes().all(|byte| byte.is_ascii_digit())
}

/// Returns the error to print for `word`, which is not a valid bound for the option named `option`.
/// `error` says why. If `word` looks like `.5` or `2.5%`, a hint says how to write the bound.
fn no_bound(option: &str, word: &str, error: BoundError) -> Error {
    let trouble = trouble!("--{option}: the bound {} {error}", quoted(word));
    if lacks_zero(word) {
        return trouble.hint(format_args!("write 0{word}"));
    }
    match without_percent(word) {
        Some(number) if option == RELATIVE => trouble.hint(format_args!("write {number}e-2")),
        Some(number) => trouble.hint(format_args!(
            "for a percentage give --{RELATIVE} NAME={number}e-2"
        )),
        None => trouble,
    }
}

/// Returns the error to print for `word`, a text in the option named `option` that has no equals
/// sign and thus no bound. `takes` says in the error what the option takes. If `word` is all
/// digits, a hint says how to write decimals: a list is split at commas, so `price=0,01` leaves the
/// text `01`.
pub(crate) fn without_bound(option: &str, takes: &str, word: &str) -> Error {
    let error = trouble!("--{option} takes {takes}, not {}", quoted(word));
    if is_digits(word) {
        return error.hint("decimals stand behind a point, and a comma parts two tolerances");
    }
    error
}

/// The greatest relative bound that is accepted. It allows any two numbers, since two numbers
/// differ by at most twice the larger of their absolute values.
const ANY_TWO: &str = "2";

/// Fails if `word`, a relative bound, is greater than 2. Such a bound allows any two numbers, and
/// may be meant as a percentage. If `word` is all digits, a hint says how to write a percentage.
fn refuse_any_two(word: &str) -> Result<()> {
    if !matches!(is_less(ANY_TWO, word), Ok(true)) {
        return Ok(());
    }
    let error = trouble!(
        "--{RELATIVE}: the bound {} allows any two numbers",
        quoted(word)
    );
    if is_digits(word) {
        return Err(error.hint(format_args!("for a percentage write {word}e-2")));
    }
    Err(error)
}

/// Parses `word`, the bound of a tolerance that the option named `option` gives. The margin is
/// relative if `option` is `RELATIVE`, and else absolute. Fails if `word` is not a bound, or if a
/// relative bound is greater than 2.
pub(crate) fn margin_of(option: &str, word: &str) -> Result<Margin> {
    match Bound::read(word) {
        Ok(bound) if option == RELATIVE => {
            refuse_any_two(word)?;
            Ok(Margin::Relative(bound))
        }
        Ok(bound) => Ok(Margin::Absolute(bound)),
        Err(error) => Err(no_bound(option, word, error)),
    }
}

/// Parses `word`, a tolerance for documents such as `items[].price=0.01`. The bound begins after
/// the last equals sign. It is relative if the option's name `option` is `RELATIVE`, and else
/// absolute. Fails if `word` has no equals sign, or if the path or the bound is invalid.
fn tolerance_of(alloc: Global, option: &str, word: &str) -> Result<Tolerance> {
    let Some((path, number)) = word.rsplit_once('=') else {
        let takes = "a path and a bound such as items[].price=0.01";
        return Err(without_bound(option, takes, word));
    };
    let margin = margin_of(option, number)?;
    let pattern = pattern_of(alloc, option, path)?;
    Ok(Tolerance { pattern, margin })
}

/// Parses the tolerances in the comma-separated lists of the option named `option`, and appends
/// them to `tolerances`. Fails if a tolerance is invalid.
fn push_tolerances(
    tolerances: &mut Vec<Tolerance>,
    alloc: Global,
    matches: &ArgMatches<'_>,
    option: &str,
) -> Result<()> {
    let words = split_lists(alloc, matches.get_strs(option).unwrap_or(&[]))?;
    for word in &words {
        tolerances.push(tolerance_of(alloc, option, word)?)?;
    }
    Ok(())
}

/// Parses the values of `--ignore`, `--only`, `--tolerance` and `--relative-tolerance`, and appends
/// them to the lists of `rules`. Fails if a pattern or a tolerance is invalid.
fn read_rules(rules: &mut Rules, alloc: Global, matches: &ArgMatches<'_>) -> Result<()> {
    push_patterns(&mut rules.ignored, alloc, matches, "ignore")?;
    push_patterns(&mut rules.only, alloc, matches, "only")?;
    push_tolerances(&mut rules.tolerances, alloc, matches, ABSOLUTE)?;
    push_tolerances(&mut rules.tolerances, alloc, matches, RELATIVE)
}

/// Returns the rules for comparing documents that the options in `matches` give. Fails if a pattern
/// or a tolerance is invalid.
pub fn rules_of(alloc: Global, matches: &ArgMatches<'_>) -> Result<Rules> {
    let mut rules = Rules {
        ignored: Vec::new(alloc),
        only: Vec::new(alloc),
        missing_is_null: matches.get_flag("missing-is-null"),
        tolerances: Vec::new(alloc),
    };
    read_rules(&mut rules, alloc, matches)?;
    Ok(rules)
}
