//! The options of a comparison and of its report.

use diff_columns::choice::Choice;
use diff_csv::options::CsvOptions;
use diff_parts::part::Part;
use diff_tolerances::cells::Tolerance;
pub use diff_words::formats::Format;

/// The options of a comparison and of its report.
#[derive(Clone, Copy)]
pub struct Options<'a> {
    /// The choice of the columns to compare.
    pub choice: Choice<'a>,
    /// The options for reading the inputs.
    pub csv: CsvOptions,
    /// If `Some`, numbers are compared by value in all columns except these. `None`: all cells are
    /// compared as texts, apart from `tolerances`.
    pub numbers: Option<&'a [&'a [u8]]>,
    /// The tolerances for numbers. Two cells of matched rows count as equal if one of the
    /// tolerances allows their difference. `None`: there are no tolerances.
    pub tolerances: Option<&'a [Tolerance<'a>]>,
    /// The part of the rows that is read and compared. The key cells, as written in the file,
    /// decide which part a row is in. `None`: all rows. If keys are compared as texts, the
    /// comparisons of all parts make up that of the whole files.
    pub part: Option<Part>,
    /// The text of a cell that stands for no value. `None`: no cell does.
    pub null: Option<&'a [u8]>,
    /// The most differences (changed, removed and added rows together) that get a line of their
    /// own. With 0, none does, and a text report does not say how many have no line.
    pub limit: usize,
    /// `true` if columns that only one input has are neither reported nor counted as a difference.
    pub common: bool,
    /// `true` if two rows of an input with the same key are an error.
    pub unique: bool,
    /// The form of the report, text or JSON.
    pub format: Format,
    /// `true` if a text report has colours for a terminal.
    pub colored: bool,
}
