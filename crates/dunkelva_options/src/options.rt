//! The options of `dunkelva diff`, in the order of the help text.

/// The kind of value that an option takes.
#[derive(Clone, Copy)]
pub enum Takes {
    /// No value.
    Nothing,
    /// A text.
    Text,
    /// A number.
    Number,
    /// One of these words.
    Word(&'static [&'static str]),
    /// A text. The option may be given several times.
    Texts,
    /// A comma-separated list of texts. The option may be given several times.
    List,
}

/// The kind of input files for which an option can be given.
#[derive(Clone, Copy, PartialEq, Eq)]
pub enum GoesWith {
    /// Tables (CSV) and documents (JSON).
    Both,
    /// Only tables.
    Tables,
    /// Only documents.
    Documents,
}

/// An option of the command line.
#[derive(Clone, Copy)]
pub struct CliOption {
    /// The name, which is written after two hyphens.
    pub id: &'static str,
    /// The letter of the short form, which is written after one hyphen.
    pub short: Option<char>,
    /// The kind of value that the option takes.
    pub takes: Takes,
    /// The name of the value in the help text.
    pub value: &'static str,
    /// The value if the option is not given: one, or none.
    pub default: &'static [&'static str],
    /// Other options that have to be given with this one.
    pub needs: &'static [&'static str],
    /// The options that can't be given together with this one. The parser refuses them.
    pub excludes: &'static [&'static str],
    /// More options that must not be given beside this one. The parser does not check this. If a
    /// config file sets one of them, and the command line has this one, the setting in the file is
    /// ignored.
    pub refuses: &'static [&'static str],
    /// The kind of input files for which the option can be given.
    pub goes_with: GoesWith,
    /// The description in the help text.
    pub help: &'static str,
}

/// The default values of the fields of an option: a switch, which takes no value. `OPTIONS` states
/// only the fields that differ.
const SWITCH: CliOption = CliOption {
    id: "",
    short: None,
    takes: Takes::Nothing,
    value: "",
    default: &[],
    needs: &[],
    excludes: &[],
    refuses: &[],
    goes_with: GoesWith::Both,
    help: "",
};

/// The options for the comparison of rows. They can't be given with `--schema-only`.
const OF_ROWS: [&str; 19] = [
    "key",
    "only",
    "ignore",
    "unique",
    "common",
    "numbers",
    "text",
    "missing-is-null",
    "tolerance",
    "relative-tolerance",
    "no-key-is-null",
    "partition",
    "sorted",
    "limit",
    "summary",
    "color",
    "width",
    "markdown",
    "html",
];

/// The options of `dunkelva diff`.
static OPTIONS: [CliOption; 27] = [
    CliOption {
        id: "key",
        short: Some('k'),
        takes: Takes::List,
        value: "COLUMNS",
        help: "The columns or paths that name a row; without them rows are compared by position",
        ..SWITCH
    },
    CliOption {
        id: "only",
        takes: Takes::List,
        value: "COLUMNS",
        help: "Compare these columns or paths alone, and the key",
        ..SWITCH
    },
    CliOption {
        id: "ignore",
        takes: Takes::List,
        value: "COLUMNS",
        help: "Compare all columns or paths but these",
        ..SWITCH
    },
    CliOption {
        id: "unique",
        needs: &["key"],
        help: "A key that comes twice in a file is an error",
        ..SWITCH
    },
    CliOption {
        id: "common",
        goes_with: GoesWith::Tables,
        help: "Leave out columns that one file has alone",
        ..SWITCH
    },
    CliOption {
        id: "numbers",
        goes_with: GoesWith::Tables,
        help: "Compare numbers by what they are worth: 12, 12.00 and 1.2e1 are the same",
        ..SWITCH
    },
    CliOption {
        id: "text",
        takes: Takes::List,
        value: "COLUMNS",
        needs: &["numbers"],
        goes_with: GoesWith::Tables,
        help: "With --numbers, compare these columns as text",
        ..SWITCH
    },
    CliOption {
        id: "missing-is-null",
        goes_with: GoesWith::Documents,
        help: "In JSON a part that is missing is the same as null",
        ..SWITCH
    },
    CliOption {
        id: "tolerance",
        takes: Takes::Texts,
        value: "COLUMN=BOUND",
        help: "Numbers in COLUMN, or at a path, may lie up to BOUND apart",
        ..SWITCH
    },
    CliOption {
        id: "relative-tolerance",
        takes: Takes::Texts,
        value: "COLUMN=BOUND",
        help: "Numbers in COLUMN, or at a path, may lie up to BOUND times the larger one apart",
        ..SWITCH
    },
    CliOption {
        id: "input",
        takes: Takes::Word(&["csv", "ndjson"]),
        value: "KIND",
        help: "The format of both files; without it their names tell it",
        ..SWITCH
    },
    CliOption {
        id: "null",
        takes: Takes::Text,
        value: "WORD",
        goes_with: GoesWith::Tables,
        help: "A field that is WORD, one word, is null, and unequal to an empty field",
        ..SWITCH
    },
    CliOption {
        id: "delimiter",
        short: Some('d'),
        takes: Takes::Text,
        value: "BYTE",
        goes_with: GoesWith::Tables,
        help: "The byte between fields, \\t for a tab; without it a comma, or a tab in .tsv files",
        ..SWITCH
    },
    CliOption {
        id: "no-header",
        goes_with: GoesWith::Tables,
        help: "The first record is a row; columns are named 1, 2, 3 ..",
        ..SWITCH
    },
    CliOption {
        id: "no-key-is-null",
        goes_with: GoesWith::Documents,
        help: "A document without a part at a key path has the key null there",
        ..SWITCH
    },
    CliOption {
        id: "skip-bad",
        goes_with: GoesWith::Documents,
        help: "Skip lines that are no documents, and say how many there are",
        ..SWITCH
    },
    CliOption {
        id: "partition",
        takes: Takes::Text,
        value: "I/N",
        needs: &["key"],
        help: "Compare part I of N of the rows or documents, by key; all N parts are the whole",
        ..SWITCH
    },
    CliOption {
        id: "sorted",
        needs: &["key"],
        goes_with: GoesWith::Tables,
        help: "Both files are sorted by key, byte by byte: keep a few rows of each in memory",
        ..SWITCH
    },
    CliOption {
        id: "limit",
        takes: Takes::Number,
        value: "N",
        default: &["20"],
        help: "Print at most N differences, in JSON too; 0 prints all",
        ..SWITCH
    },
    CliOption {
        id: "summary",
        help: "Print the counts alone, and no differences",
        ..SWITCH
    },
    CliOption {
        id: "schema-only",
        refuses: &OF_ROWS,
        help: "Compare the columns and their types, or the paths in JSON, and no rows",
        ..SWITCH
    },
    CliOption {
        id: "format",
        takes: Takes::Word(&["text", "json"]),
        value: "FORM",
        default: &["text"],
        help: "Print lines to read, or a JSON object in each line; both stop at 20 without --limit",
        ..SWITCH
    },
    CliOption {
        id: "color",
        takes: Takes::Word(&["auto", "always", "never"]),
        value: "WHEN",
        default: &["auto"],
        help: "Print in colours; auto does on a terminal, unless NO_COLOR is set",
        ..SWITCH
    },
    CliOption {
        id: "width",
        takes: Takes::Number,
        value: "N",
        excludes: &["format"],
        help: "Print aligned columns, no wider than N columns of the terminal; 40 or more",
        ..SWITCH
    },
    CliOption {
        id: "markdown",
        excludes: &["format", "width"],
        help: "Print the report as Markdown, for a pull request",
        ..SWITCH
    },
    CliOption {
        id: "html",
        takes: Takes::Text,
        value: "FILE",
        excludes: &["format", "width", "markdown"],
        help: "Write a page to look at into FILE, of up to 10000 differences, and print nothing",
        ..SWITCH
    },
    CliOption {
        id: "config",
        takes: Takes::Text,
        value: "FILE",
        help: "Take options from FILE, which is TOML; those of the command line win",
        ..SWITCH
    },
];

/// Returns the options of `dunkelva diff`.
pub fn options() -> &'static [CliOption] {
    &OPTIONS
}

/// Returns the option with the name `id`, or `None` if there is no such option.
pub(crate) fn find_option(id: &str) -> Option<&'static CliOption> {
    for option in options() {
        if option.id == id {
            return Some(option);
        }
    }
    None
}

/// Returns the names of the options that the option `id` refuses (its field `refuses`), or an empty
/// slice if there is no such option.
pub fn refused_by(id: &str) -> &'static [&'static str] {
    match find_option(id) {
        Some(option) => option.refuses,
        None => &[],
    }
}
