//! Comparisons of two inputs, and the output of their reports.

use crate::progress::{Counted, ErasingWriter, Progress};
use diff_aligned::aligned::{Sheet, push_aligned};
use diff_keys::outcome::Outcome;
use diff_markdown::markdown::push_markdown;
use diff_page::page::push_page;
use diff_run::error::RunError;
use diff_run::options::Options;
use diff_run::run::{Input, run};
use diff_sorted::error::SortedError;
use diff_sorted::run::run_sorted;
use diff_words::formats::Format;
use document_run::error::DocumentError;
use document_run::options::DocumentOptions;
use document_run::run::run_documents;
use dunkelva_diagnostics::trouble::{document_trouble, sorted_trouble, table_trouble};
use dunkelva_messages::error::{About, Result};
use dunkelva_messages::files::{Source, open, open_again, total_of};
use dunkelva_messages::hints::explained;
use dunkelva_messages::trouble;
use dunkelva_settings::words::Target;
use std::alloc::Global;
use std::io::{ErrorKind, IsTerminal, Write};
use std::{fs, io};

/// The result of a comparison that ended without an error. It decides the exit status.
#[derive(Clone, Copy)]
enum Ending {
    Same,
    Different,
    /// Standard output is a pipe that nobody reads any more.
    Unread,
}

impl Ending {
    /// Returns the exit status of the program: 0 for `Same`, 1 for `Different`, and 2 for `Unread`.
    fn status(self) -> u8 {
        match self {
            Ending::Same => 0,
            Ending::Different => 1,
            Ending::Unread => 2,
        }
    }
}

impl From<Outcome> for Ending {
    fn from(outcome: Outcome) -> Ending {
        match outcome {
            Outcome::Same => Ending::Same,
            Outcome::Different => Ending::Different,
        }
    }
}

/// A comparison to run: the kind of the input files, and the options.
#[derive(Clone, Copy)]
pub(crate) enum Task<'a> {
    /// CSV files.
    Tables(&'a Options<'a>),
    /// CSV files that are sorted by key.
    Sorted(&'a Options<'a>),
    /// Files of JSON documents, one document in each line.
    Documents(&'a DocumentOptions<'a>),
}

impl Task<'_> {
    /// Returns whether rows or documents are matched by position, since no key is given.
    fn is_by_position(self) -> bool {
        match self {
            Task::Tables(options) | Task::Sorted(options) => options.choice.keys.is_empty(),
            Task::Documents(options) => options.keys.is_empty(),
        }
    }

    /// Returns the greatest number of differences to print as JSON lines. Returns `None` if the
    /// report is text, has all differences, or has the counts alone.
    fn limit_of_lines(self) -> Option<usize> {
        let (format, limit) = match self {
            Task::Tables(options) | Task::Sorted(options) => (options.format, options.limit),
            Task::Documents(options) => (options.format, options.limit),
        };
        match format {
            Format::Json if 0 < limit && limit < usize::MAX => Some(limit),
            _ => None,
        }
    }
}

/// Prints advice on standard error if `ending` is `Different` and standard error is a terminal. If
/// `task` has no key, advises to give `--key`. If the report is printed as JSON lines, which may
/// lack differences because of a limit, advises to give `--limit 0`.
fn advise(rt: &HostRuntime, task: Task<'_>, target: Target<'_>, ending: Ending) {
    let Ending::Different = ending else {
        return;
    };
    if !rt.stderr().is_terminal() {
        return;
    }
    if task.is_by_position() {
        let _ = eprintln!(rt; "dunkelva: rows were matched by position; --key matches them by key");
    }
    if let Target::Output = target
        && let Some(limit) = task.limit_of_lines()
    {
        let _ = eprintln!(rt;
            "dunkelva: at most {limit} differences are printed; --limit 0 prints all"
        );
    }
}

/// Returns an input named `name` that reads from `source`. The numbers of bytes read are reported
/// to `progress`.
fn counted<'a>(
    name: &'a str,
    source: Source,
    progress: &'a Progress<'a>,
) -> Input<'a, Counted<'a>> {
    Input {
        name: name.as_bytes(),
        reader: Counted { source, progress },
    }
}

/// Returns the result of a comparison whose report could not be written to standard output because
/// of `cause`. If `cause` is a closed pipe, returns `Unread`. Fails for all other causes.
fn unwritten(cause: io::Error) -> Result<Ending> {
    if cause.kind() == ErrorKind::BrokenPipe {
        return Ok(Ending::Unread);
    }
    Err(trouble!("{cause}").context("standard output"))
}

/// Converts `came_to`, the result of a comparison of the CSV files named `names` with `options`, to
/// an `Ending`. A closed pipe gives `Unread`. Any other error becomes the error to print.
fn tables_ending(
    rt: &HostRuntime,
    came_to: Result<Outcome, RunError>,
    names: (&str, &str),
    options: &Options<'_>,
) -> Result<Ending> {
    match came_to {
        Ok(outcome) => Ok(Ending::from(outcome)),
        Err(RunError::Write { cause }) => unwritten(cause),
        Err(error) => Err(table_trouble(rt, &error, names, options)),
    }
}

/// Converts `came_to`, the result of a comparison of the sorted CSV files named `names` with
/// `options`, to an `Ending`. A closed pipe gives `Unread`. Any other error becomes the error to
/// print.
fn sorted_ending(
    rt: &HostRuntime,
    came_to: Result<Outcome, SortedError>,
    names: (&str, &str),
    options: &Options<'_>,
) -> Result<Ending> {
    match came_to {
        Ok(outcome) => Ok(Ending::from(outcome)),
        Err(SortedError::Run { cause }) => tables_ending(rt, Err(cause), names, options),
        Err(error) => Err(sorted_trouble(rt, &error, names, options)),
    }
}

/// Converts `came_to`, the result of a comparison of the files of documents named `names` with
/// `options`, to an `Ending`. A closed pipe gives `Unread`. Any other error becomes the error to
/// print.
fn documents_ending(
    rt: &HostRuntime,
    came_to: Result<Outcome, DocumentError>,
    names: (&str, &str),
    options: &DocumentOptions<'_>,
) -> Result<Ending> {
    match came_to {
        Ok(outcome) => Ok(Ending::from(outcome)),
        Err(DocumentError::Write { cause }) => unwritten(cause),
        Err(error) => Err(document_trouble(rt, &error, names, options)),
    }
}

/// Runs the comparison `task` of the inputs `left` and `right`, which have the names `names`, and
/// writes the report to `out`. Returns the result, or the error to print.
fn report_to<W: Write>(
    rt: &HostRuntime,
    left: Source,
    right: Source,
    names: (&str, &str),
    progress: &Progress<'_>,
    task: Task<'_>,
    out: &mut W,
) -> Result<Ending> {
    let left = counted(names.0, left, progress);
    let right = counted(names.1, right, progress);
    match task {
        Task::Tables(options) => {
            let came_to = run(rt.alloc(), left, right, out, options);
            tables_ending(rt, came_to, names, options)
        }
        Task::Sorted(options) => {
            let came_to = run_sorted(rt.alloc(), left, right, out, options);
            sorted_ending(rt, came_to, names, options)
        }
        Task::Documents(options) => {
            let came_to = run_documents(rt.alloc(), left, right, out, options);
            documents_ending(rt, came_to, names, options)
        }
    }
}

/// A finished report, and the result of the comparison.
#[derive(Drop)]
struct Made {
    report: Vec<u8>,
    ending: Ending,
}

/// Runs the comparison `task` of the inputs `left` and `right`, which have the names `names`, and
/// returns the report and the result. Fails if the comparison fails.
fn report_of(
    rt: &HostRuntime,
    left: Source,
    right: Source,
    names: (&str, &str),
    progress: &Progress<'_>,
    task: Task<'_>,
) -> Result<Made> {
    let mut report = Vec::new(rt.alloc());
    let ending = report_to(rt, left, right, names, progress, task, &mut report)?;
    Ok(Made { report, ending })
}

/// Runs the comparison `task` of the inputs `left` and `right`, which have the names `names`, and
/// prints the report on standard output while it is made. Returns the result, or the error to
/// print.
fn print_report(
    rt: &HostRuntime,
    left: Source,
    right: Source,
    names: (&str, &str),
    progress: &Progress<'_>,
    task: Task<'_>,
) -> Result<Ending> {
    let mut out = ErasingWriter {
        writer: io::writer(rt),
        progress,
    };
    report_to(rt, left, right, names, progress, task, &mut out)
}

/// Erases the progress line, if it is visible, and prints `text` on standard output. Returns
/// `ending`, or `Unread` if standard output is a closed pipe. Fails if the output fails for another
/// reason.
fn print_text(
    rt: &HostRuntime,
    text: &[u8],
    progress: &Progress<'_>,
    ending: Ending,
) -> Result<Ending> {
    let mut out = ErasingWriter {
        writer: io::writer(rt),
        progress,
    };
    match out.write_all(text) {
        Ok(()) => Ok(ending),
        Err(cause) => unwritten(cause),
    }
}

/// Writes the HTML page `page` to the file at `path`, and returns `ending`. Fails if the file can't
/// be written.
fn write_page(rt: &HostRuntime, page: &[u8], path: &str, ending: Ending) -> Result<Ending> {
    match fs::write(rt, path, page) {
        Ok(()) => Ok(ending),
        Err(error) => Err(trouble!("{error}").context(path)),
    }
}

/// Converts `report` to the form that `target` needs, and appends the result to `text`. For
/// Markdown, aligned columns and pages, `report` has to consist of JSON lines. `names` are the
/// names of the two inputs.
fn push_form(
    alloc: Global,
    text: &mut Vec<u8>,
    names: (&str, &str),
    target: Target<'_>,
    report: &[u8],
) -> Result<()> {
    match target {
        Target::Output => text.extend_from_slice(report)?,
        Target::Markdown => push_markdown(alloc, text, names.0, names.1, report)?,
        Target::Aligned(width, colored) => {
            let sheet = Sheet {
                width,
                colored,
                left: names.0,
                right: names.1,
            };
            push_aligned(alloc, text, &sheet, report)?;
        }
        Target::Page(_) => push_page(text, names.0.as_bytes(), names.1.as_bytes(), report)?,
    }
    Ok(())
}

/// Converts the report in `made` to the form that `target` needs, and writes it to `target`.
/// Returns the result of the comparison, or `Unread` if standard output is a closed pipe. Fails if
/// the report can't be converted or written.
fn show(
    rt: &HostRuntime,
    made: &Made,
    names: (&str, &str),
    progress: &Progress<'_>,
    target: Target<'_>,
) -> Result<Ending> {
    let mut text = Vec::new(rt.alloc());
    push_form(rt.alloc(), &mut text, names, target, &made.report)?;
    match target {
        Target::Page(path) => write_page(rt, &text, path, made.ending),
        _ => print_text(rt, &text, progress, made.ending),
    }
}

/// Runs the comparison `task` of the inputs `left` and `right`, which have the names `names`.
/// Writes the report to `target`, and returns the result. For `Target::Output` the report is
/// written while it is made, and for other targets at the end. Fails if the comparison fails or the
/// report can't be written.
fn compared(
    rt: &HostRuntime,
    left: Source,
    right: Source,
    names: (&str, &str),
    progress: &Progress<'_>,
    task: Task<'_>,
    target: Target<'_>,
) -> Result<Ending> {
    if let Target::Output = target {
        return print_report(rt, left, right, names, progress, task);
    }
    let made = report_of(rt, left, right, names, progress, task)?;
    show(rt, &made, names, progress, target)
}

/// Runs the comparison `task` of the inputs `left` and `right`, which have the names `names`.
/// Writes the report to `target`, shows the progress meanwhile, and prints advice at the end
/// (`advise`). Returns the exit status. Fails as `compared` does.
fn compare(
    rt: &HostRuntime,
    left: Source,
    right: Source,
    names: (&str, &str),
    task: Task<'_>,
    target: Target<'_>,
) -> Result<u8> {
    let progress = Progress::new(rt, total_of(&left, &right));
    let ending = compared(rt, left, right, names, &progress, task, target);
    progress.erase();
    match ending {
        Ok(ending) => {
            advise(rt, task, target, ending);
            Ok(ending.status())
        }
        Err(error) => Err(error),
    }
}

/// Opens the input named `name`. `has_stdin` says whether one of the inputs is standard input.
/// Unless `may_be_documents` is true, reading the input fails if it begins like a JSON document.
/// Fails if the input can't be opened.
pub(crate) fn open_for(
    rt: &HostRuntime,
    name: &str,
    has_stdin: bool,
    may_be_documents: bool,
) -> Result<Source> {
    let source = open(rt, name, has_stdin)?;
    if may_be_documents {
        Ok(source)
    } else {
        Ok(source.refusing_documents())
    }
}

/// Opens the inputs named `left` and `right`, runs the comparison `task`, writes the report to
/// `target`, and returns the exit status. The name `-` is standard input. Fails if both inputs are
/// standard input, if an input can't be opened, or if the comparison fails. Also fails if an input
/// begins like a JSON document, unless `may_be_documents` is true.
pub(crate) fn compare_named(
    rt: &HostRuntime,
    left: &str,
    right: &str,
    may_be_documents: bool,
    task: Task<'_>,
    target: Target<'_>,
) -> Result<u8> {
    if left == "-" && right == "-" {
        return Err(trouble!("only one of the two files can be standard input"));
    }
    let has_standard = left == "-" || right == "-";
    let names = (left, right);
    let left = open_for(rt, left, has_standard, may_be_documents)?;
    let right = open_for(rt, right, has_standard, may_be_documents)?;
    match compare(rt, left, right, names, task, target) {
        Ok(status) => Ok(status),
        Err(error) => Err(explained(rt, error, &[names.0, names.1])),
    }
}

/// Returns whether the files named `left` and `right` can both be read a second time.
pub(crate) fn can_repeat(rt: &HostRuntime, left: &str, right: &str) -> bool {
    open_again(rt, left).is_some() && open_again(rt, right).is_some()
}

/// Returns `first`, the result of a comparison of the files named `left` and `right` with unique
/// keys, unless it is the error that a key is repeated. In this case compares the files once more
/// (`compare_named`), with `task`, which allows repeated keys, and prints `first` as a warning on
/// standard error. Returns the exit status. Fails as `compare_named` does.
pub(crate) fn compare_again(
    rt: &HostRuntime,
    (left, right): (&str, &str),
    may_be_documents: bool,
    first: Result<u8>,
    task: Task<'_>,
    target: Target<'_>,
) -> Result<u8> {
    let error = match first {
        Ok(status) => return Ok(status),
        Err(error) => error,
    };
    let About::OneKey = error.part() else {
        return Err(error);
    };
    let status = compare_named(rt, left, right, may_be_documents, task, target)?;
    let _ = eprintln!(rt;
        "dunkelva: warning: {error}; more keys may be repeated (rows of one key are matched in \
         their order; --unique refuses them)"
    );
    Ok(status)
}
