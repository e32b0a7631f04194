//! The options for reading a CSV text.

ghost use Rattle.std.specs.Prelude.{◌≡◌};
ghost use Rattle.diff_csv.specs.Options.{is_delimiter};

/// The options for reading a CSV text.
#[derive(Clone, Copy)]
pub struct CsvOptions {
    /// The byte between two fields. `Source::open` refuses a quote, a line feed and a carriage
    /// return.
    pub delimiter: u8,
    /// `true` if the first record has the names of the columns. `false` if the first record is a
    /// row.
    pub has_header: bool,
}

/// Returns whether a byte is allowed as a delimiter. All bytes are, except a quote, a line feed and
/// a carriage return.
pub fn is_delimiter(byte: u8) -> bool
    ensures { result ≡ is_delimiter byte }
{
    !(byte == b'"' || byte == b'\n' || byte == b'\r')
}
