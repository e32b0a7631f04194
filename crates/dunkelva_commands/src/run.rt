//! The commands of the program, and the exit status of each.
//!
//! The exit status is 1 if a comparison found a difference, and 2 after an error or if standard
//! output is a closed pipe. Otherwise it is 0. `run` prints the errors that the other functions
//! return.

use crate::inputs::refuse_packed;
use crate::outputs::refuse_own_target;
use crate::schema::show_schema;
use crate::schema_changes::compare_schemas;
use crate::tasks::{Task, can_repeat, compare_again, compare_named};
use clap::ArgMatches;
use diff_columns::choice::Choice;
use diff_run::options::Options;
use diff_tolerances::cells::Tolerance;
use document_rows::reading::Reading;
use document_run::options::DocumentOptions;
use dunkelva_diagnostics::commas::warn_of_commas;
use dunkelva_diagnostics::unfound::{refuse_unknown_only, warn_of_unknown};
use dunkelva_messages::error::Result;
use dunkelva_messages::hints::{explained, refuse_not_text};
use dunkelva_messages::trouble;
use dunkelva_options::command::command;
use dunkelva_options::config::{Config, config_for, joined, named_files, with_file};
use dunkelva_options::refusals::{advice_for, reason_in, without_tip};
use dunkelva_settings::choices::refuse_nothing_left;
use dunkelva_settings::keys::{Keys, keys_of};
use dunkelva_settings::kinds::{
    hold_documents, refuse_document_options, refuse_table_options, refuse_two_formats,
};
use dunkelva_settings::parts::{part_of_rows, refuse_unsorted, selected_part};
use dunkelva_settings::rules::rules_of;
use dunkelva_settings::tolerances::tolerances_of;
use dunkelva_settings::words::{
    Names, Target, csv_options, format_of, is_colored, limit_of, target_of,
};
use json_changes::changes::Rules;
use std::env;

/// The exit status of a comparison that found a difference.
const DIFFERENT: u8 = 1;

/// The exit status if the program fails, for example because files can't be compared.
const TROUBLE: u8 = 2;

/// Compares the two CSV files `left` and `right` with `options`, but a repeated key is an error.
/// `may_be_documents` is as for `compare_named`. Writes the report to `target`, and returns the
/// exit status. Fails as `compare_named` does.
fn compare_unique(
    rt: &HostRuntime,
    (left, right): (&str, &str),
    may_be_documents: bool,
    options: &Options<'_>,
    target: Target<'_>,
) -> Result<u8> {
    let (choice, numbers, null) = (options.choice, options.numbers, options.null);
    let tolerances = options.tolerances;
    let unique = Options {
        choice,
        csv: options.csv,
        numbers,
        tolerances,
        part: options.part,
        null,
        limit: options.limit,
        common: options.common,
        unique: true,
        format: options.format,
        colored: options.colored,
    };
    compare_named(
        rt,
        left,
        right,
        may_be_documents,
        Task::Tables(&unique),
        target,
    )
}

/// Compares the two CSV files `left` and `right`, which need not be sorted, with `options`.
/// `may_be_documents` is as for `compare_named`. Writes the report to `target`, and returns the
/// exit status. Warns of a repeated key (`compare_again`), unless keys have to be unique or a file
/// can't be read twice. Fails as `compare_named` does.
fn compare_tables(
    rt: &HostRuntime,
    (left, right): (&str, &str),
    may_be_documents: bool,
    options: &Options<'_>,
    target: Target<'_>,
) -> Result<u8> {
    let task = Task::Tables(options);
    if options.choice.keys.is_empty() || options.unique || !can_repeat(rt, left, right) {
        return compare_named(rt, left, right, may_be_documents, task, target);
    }
    // Nothing is written if this fails at a repeated key.
    let first = compare_unique(rt, (left, right), may_be_documents, options, target);
    compare_again(rt, (left, right), may_be_documents, first, task, target)
}

/// Compares the files of documents `left` and `right` with `options`, but a repeated key is an
/// error. Writes the report to `target`, and returns the exit status. Fails as `compare_named`
/// does.
fn compare_unique_documents(
    rt: &HostRuntime,
    (left, right): (&str, &str),
    options: &DocumentOptions<'_>,
    target: Target<'_>,
) -> Result<u8> {
    let (keys, names, rules) = (options.keys, options.names, options.rules);
    let unique = DocumentOptions {
        keys,
        names,
        reading: options.reading,
        rules,
        limit: options.limit,
        unique: true,
        format: options.format,
        colored: options.colored,
    };
    compare_named(rt, left, right, true, Task::Documents(&unique), target)
}

/// Compares the CSV files `left` and `right` with the columns that `names` gives and with
/// `tolerances`. The other options are those in `matches`. Writes the report to `target`, and
/// returns the exit status. Warns of numbers with a comma if there is a difference. Fails if an
/// option is invalid or can't be given with `--sorted`, or if the comparison fails.
fn diff_by_names(
    rt: &HostRuntime,
    matches: &ArgMatches<'_>,
    (left, right): (&str, &str),
    names: &Names<'_>,
    tolerances: &[Tolerance<'_>],
    target: Target<'_>,
) -> Result<u8> {
    let choice = Choice {
        keys: &names.keys,
        only: matches.contains_id("only").then_some(names.only.as_slice()),
        ignored: &names.ignored,
    };
    let options = Options {
        choice,
        csv: csv_options(matches, left, right)?,
        numbers: matches
            .get_flag("numbers")
            .then_some(names.texts.as_slice()),
        tolerances: (!tolerances.is_empty()).then_some(tolerances),
        part: part_of_rows(matches, names)?,
        null: matches.get_str("null").map(|word| word.as_bytes()),
        limit: limit_of(matches)?,
        common: matches.get_flag("common"),
        unique: matches.get_flag("unique"),
        format: format_of(matches),
        colored: is_colored(rt, matches),
    };
    // With `--input csv`, a file that begins like a JSON document is read as CSV too.
    let is_said = matches.contains_id("input");
    if matches.get_flag("sorted") {
        refuse_unsorted(matches)?;
        return compare_named(rt, left, right, is_said, Task::Sorted(&options), target);
    }
    let status = compare_tables(rt, (left, right), is_said, &options, target)?;
    if status == DIFFERENT {
        warn_of_commas(rt, left, right, &options);
    }
    Ok(status)
}

/// Compares the two CSV files `files` with the options in `matches`. Writes the report to `target`,
/// and returns the exit status. Fails if an option is only for documents, if an option is invalid,
/// or if the comparison fails.
fn diff_tables(
    rt: &HostRuntime,
    matches: &ArgMatches<'_>,
    files: (&str, &str),
    target: Target<'_>,
) -> Result<u8> {
    refuse_document_options(matches)?;
    let names = Names::of(rt.alloc(), matches)?;
    let tolerances = tolerances_of(rt.alloc(), matches, &names.keys)?;
    diff_by_names(rt, matches, files, &names, &tolerances, target)
}

/// Compares the files of documents `left` and `right` with `options`. Writes the report to
/// `target`, and returns the exit status. Warns of a repeated key (`compare_again`), unless keys
/// have to be unique or a file can't be read twice. Fails as `compare_named` does.
fn compare_documents(
    rt: &HostRuntime,
    (left, right): (&str, &str),
    options: &DocumentOptions<'_>,
    target: Target<'_>,
) -> Result<u8> {
    let task = Task::Documents(options);
    if options.keys.is_empty() || options.unique || !can_repeat(rt, left, right) {
        return compare_named(rt, left, right, true, task, target);
    }
    // Nothing is written if this fails at a repeated key.
    let first = compare_unique_documents(rt, (left, right), options, target);
    compare_again(rt, (left, right), true, first, task, target)
}

/// Compares the files of documents `left` and `right` with the given keys and rules. The other
/// options are those in `matches`. Writes the report to `target`, and returns the exit status.
/// Prints warnings about paths in options at which no document has a part. Fails if an option is
/// invalid, if no document has a part at the first step of any path of `--only`
/// (`refuse_unknown_only`), or if the comparison fails.
fn diff_by_paths(
    rt: &HostRuntime,
    matches: &ArgMatches<'_>,
    (left, right): (&str, &str),
    keys: &Keys<'_>,
    rules: &Rules,
    target: Target<'_>,
) -> Result<u8> {
    let options = DocumentOptions {
        keys: &keys.paths,
        names: &keys.names,
        reading: Reading {
            null_keys: matches.get_flag("no-key-is-null"),
            skip_bad: matches.get_flag("skip-bad"),
            part: selected_part(matches)?,
        },
        rules,
        limit: limit_of(matches)?,
        unique: matches.get_flag("unique"),
        format: format_of(matches),
        colored: is_colored(rt, matches),
    };
    refuse_unknown_only(rt, matches, rules, left, right)?;
    let status = compare_documents(rt, (left, right), &options, target)?;
    warn_of_unknown(rt, matches, keys, rules, left, right);
    Ok(status)
}

/// Compares the two files of documents `files` with the options in `matches`. Writes the report to
/// `target`, and returns the exit status. Fails if an option is only for tables, if an option is
/// invalid, or if the comparison fails.
fn diff_documents(
    rt: &HostRuntime,
    matches: &ArgMatches<'_>,
    files: (&str, &str),
    target: Target<'_>,
) -> Result<u8> {
    refuse_table_options(matches)?;
    let keys = keys_of(rt.alloc(), matches)?;
    let rules = rules_of(rt.alloc(), matches)?;
    diff_by_paths(rt, matches, files, &keys, &rules, target)
}

/// Runs `dunkelva diff`: compares the two files that the command line and the config file name, or
/// only their schemas with `--schema-only`. Returns the exit status. Fails if the files or the
/// options can't be used together, or if the comparison fails.
fn diff(rt: &HostRuntime, matches: &ArgMatches<'_>, config: &Config) -> Result<u8> {
    let (first, second) = (matches.get_str("left"), matches.get_str("right"));
    let (left, right) = named_files(first, second, config)?;
    let target = target_of(rt, matches)?;
    refuse_two_formats(rt, matches, left, right)?;
    if matches.get_flag("schema-only") {
        // An invalid `--limit` is reported as such before `compare_schemas` refuses the option.
        limit_of(matches)?;
        let shown = compare_schemas(rt, matches, left, right);
        return shown.map_err(|error| explained(rt, error, &[left, right]));
    }
    refuse_own_target(rt, &[left, right], target)?;
    refuse_packed(rt, left)?;
    refuse_packed(rt, right)?;
    refuse_nothing_left(rt.alloc(), matches)?;
    if hold_documents(rt, matches, left, right)? {
        return diff_documents(rt, matches, (left, right), target);
    }
    diff_tables(rt, matches, (left, right), target)
}

/// Runs `dunkelva schema`: prints the schema of the file given as argument, or of standard input,
/// and returns the exit status. Fails if the file begins like a known format that is not UTF-8
/// text, or if `show_schema` fails.
fn print_schema(rt: &HostRuntime, matches: &ArgMatches<'_>) -> Result<u8> {
    let file = matches.get_str("file").unwrap_or("-");
    refuse_not_text(rt, file)?;
    show_schema(rt, matches).map_err(|error| explained(rt, error, &[file]))
}

/// Runs the command in the parsed arguments `matches`, with the settings `config` of the config
/// file, and returns the exit status. Fails if there is no command, or if the command fails.
fn run_matches(rt: &HostRuntime, matches: &ArgMatches<'_>, config: &Config) -> Result<u8> {
    match matches.subcommand() {
        Some(("diff", matches)) => diff(rt, matches, config),
        Some(("schema", matches)) => print_schema(rt, matches),
        _ => Err(trouble!("no command is given")),
    }
}

/// Prints `error`, which the parser returned for the arguments `words`, on standard error. If there
/// is advice for this error, prints the advice in place of the usage.
fn print_reason(rt: &HostRuntime, words: &[&str], error: &clap::Error) -> Result<()> {
    let text = format!(in rt.alloc(); "{error}")?;
    match advice_for(rt, words, error.kind()) {
        Some(advice) => {
            let reason = reason_in(rt.alloc(), &text)?;
            eprintln!(rt; "{reason}dunkelva: {advice}")?;
        }
        None => eprint!(rt; "{}", without_tip(rt.alloc(), &text)?)?,
    }
    Ok(())
}

/// Prints `error`, which the parser returned for the arguments `words`: an error of the command
/// line on standard error, or else the help or version that was asked for. Returns the exit status.
fn print_refusal(rt: &HostRuntime, words: &[&str], error: &clap::Error) -> Result<u8> {
    if error.use_stderr() {
        print_reason(rt, words, error)?;
    } else {
        error.print(rt)?;
    }
    Ok(error.exit_code() as u8)
}

/// Parses the arguments `words`, runs the command they give with the settings `config` of the
/// config file, and returns the exit status. If `words` can't be parsed, or ask for help or the
/// version, prints the error or the text instead. Fails if the command fails.
fn run_command(rt: &HostRuntime, words: &[&str], config: &Config) -> Result<u8> {
    let command = command(rt.alloc())?;
    match command.try_get_matches_from(words) {
        Ok(matches) => run_matches(rt, &matches, config),
        Err(error) => print_refusal(rt, words, &error),
    }
}

/// Runs the command line `words` together with the options in `config`, the settings of the config
/// file. Returns the exit status. Fails if the command fails. An error about an option that the
/// file sets names the file.
fn run_set(rt: &HostRuntime, words: &[String], config: &Config) -> Result<u8> {
    let all = joined(rt.alloc(), words, &config.words)?;
    match run_command(rt, &all, config) {
        Ok(status) => Ok(status),
        Err(error) => Err(with_file(error, config, words)),
    }
}

/// Reads the config file that the command line `words` names, if it names one, and runs the
/// command. Returns the exit status. Fails if the config file is invalid or can't be read, or if
/// the command fails.
fn run_given(rt: &HostRuntime, words: &[String]) -> Result<u8> {
    let config = config_for(rt, words)?;
    run_set(rt, words, &config)
}

/// Runs the program with its command-line arguments, and returns the exit status.
fn run_words(rt: &HostRuntime) -> Result<u8> {
    let words: Vec<String> = env::args(rt)?.collect(rt.alloc())?;
    run_given(rt, &words)
}

/// Runs the program, and returns its exit status. If there is an error, prints it on standard
/// error. The exit status is then 2.
pub fn run(rt: &HostRuntime) -> u8 {
    match run_words(rt) {
        Ok(status) => status,
        Err(error) => {
            let _ = eprintln!(rt; "dunkelva: {error}");
            TROUBLE
        }
    }
}
