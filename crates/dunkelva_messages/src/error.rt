//! The errors that the program prints.

use std::error::Error as StdError;
use std::fmt;
use std::fmt::{Display, Formatter, InlineText};

/// The greatest length of a message, in bytes. A longer message is cut. Long names therefore come
/// last in a message.
const ROOM: usize = 2000;

/// The greatest length of a file name in an error, in bytes. A longer path can't be opened.
const NAME_ROOM: usize = 4096;

/// The number of fields of a record, and the number that it should have.
#[derive(Clone, Copy)]
pub struct Lengths {
    /// The line at which the record begins. The first line is 1.
    pub line: u64,
    /// The number of fields of the first record. All records should have as many.
    pub expected: u64,
    /// The number of fields of the record.
    pub found: u64,
    /// The byte that separates fields.
    pub delimiter: u8,
}

/// The cause of an error in a file, from which a hint is made.
#[derive(Clone, Copy)]
pub enum About {
    /// The file can't be read as CSV.
    Records,
    /// A record has another number of fields than the first one.
    Lengths(Lengths),
    /// A line is not a document. The fault is at this column, which counts characters; the first
    /// line and column are 1.
    Line { line: u64, column: u64 },
    /// Two rows or documents of the file have the same key.
    OneKey,
    /// Anything else.
    Other,
}

/// An error to print: its message, the name of the file or stream that it is about, if any, and its
/// cause.
#[derive(Drop)]
pub struct Error {
    // The braces keep the two constants out of the types that other modules see.
    name: Option<InlineText<{ NAME_ROOM }>>,
    message: InlineText<{ ROOM }>,
    about: About,
}

/// A result whose error has a message to print.
pub type Result<T, E = Error> = std::result::Result<T, E>;

impl Error {
    /// Creates an error with the message `message` that is about no file.
    pub fn msg<M: Display + Drop>(message: M) -> Error {
        Error {
            name: None,
            message: InlineText::of(message),
            about: About::Other,
        }
    }

    /// Returns the error with `name` as the file or stream that it is about.
    pub fn context(self, name: &str) -> Error {
        Error {
            name: Some(InlineText::of(name)),
            ..self
        }
    }

    /// Returns the error with `about` as its cause in the file.
    pub fn about(self, about: About) -> Error {
        Error { about, ..self }
    }

    /// Returns the error with a colon and `hint` appended to its message.
    pub fn hint<M: Display + Drop>(self, hint: M) -> Error {
        Error {
            message: self.message.and_str(": ", ROOM).and(hint, ROOM),
            ..self
        }
    }

    /// Returns the name of the file or stream that the error is about, or `None` if it is about
    /// none.
    pub fn file(&self) -> Option<&str> {
        match &self.name {
            Some(name) => Some(name.as_str()),
            None => None,
        }
    }

    /// Returns the cause of the error in the file, or `About::Other` if none was set.
    pub fn part(&self) -> About {
        self.about
    }

    /// Returns the message up to its first colon that a blank follows, or the whole message if it
    /// has no such colon. In an error about options, this part names them.
    pub fn subject(&self) -> &str {
        let message = self.message.as_str();
        match message.split_once(": ") {
            Some((subject, _)) => subject,
            None => message,
        }
    }
}

impl<E: StdError> From<E> for Error {
    fn from(error: E) -> Error {
        Error::msg(error)
    }
}

impl Display for Error {
    fn fmt<W: fmt::Write>(&self, f: &mut Formatter<W>) -> fmt::Result {
        if let Some(name) = &self.name {
            f.write_str(name.as_str())?;
            f.write_str(": ")?;
        }
        f.write_str(self.message.as_str())
    }
}
