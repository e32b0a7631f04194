//! The input files.

use crate::error::Result;
use std::io::{ErrorKind, Read, StdinLock};
use std::os::fd::AsRawFd;
use std::{fs, io};

/// A file or standard input.
#[derive(Drop)]
enum Input {
    File(fs::File),
    Standard(StdinLock<'static>),
}

/// A state of the check whether a CSV input begins like a JSON document.
#[derive(Clone, Copy)]
enum Start {
    /// Nothing was read.
    Nothing,
    /// A `{`, and perhaps blanks after it, were read.
    Brace,
    /// The check is over, or was not asked for. No more bytes are checked.
    Over,
}

impl Start {
    /// Returns the state after `bytes` were read in the state `self`. Returns `None` if the input
    /// begins with `{` and `"`, which may have spaces and tabs between them.
    fn after(self, bytes: &[u8]) -> Option<Start> {
        let mut start = self;
        for byte in bytes {
            start = match (start, *byte) {
                (Start::Nothing, b'{') => Start::Brace,
                (Start::Brace, b' ' | b'\t') => Start::Brace,
                (Start::Brace, b'"') => return None,
                _ => return Some(Start::Over),
            };
        }
        Some(start)
    }
}

/// An open input, with the state `start` of the check of its first bytes.
#[derive(Drop)]
pub struct Source {
    input: Input,
    start: Start,
}

impl Source {
    /// Returns this source, but reads from it fail with `InvalidData` if the input begins like a
    /// JSON document. Nothing may have been read yet.
    pub fn refusing_documents(self) -> Source {
        Source {
            start: Start::Nothing,
            ..self
        }
    }

    /// Returns the size of the input in bytes if it is a regular file, or `None` for any other
    /// input, or if the size can't be read.
    pub fn size(&self) -> Option<u64> {
        let Input::File(file) = &self.input else {
            return None;
        };
        let data = file.metadata().ok()?;
        if data.is_file() {
            Some(data.len())
        } else {
            None
        }
    }
}

impl Read for Input {
    fn read(&mut self, buf: &mut [u8]) -> io::Result<usize> {
        match self {
            Input::File(file) => file.read(buf),
            Input::Standard(input) => input.read(buf),
        }
    }
}

impl Read for Source {
    fn read(&mut self, buf: &mut [u8]) -> io::Result<usize> {
        let count = self.input.read(buf)?;
        if let Start::Over = self.start {
            return Ok(count);
        }
        match self.start.after(buf.get(..count).unwrap_or(&[])) {
            Some(start) => {
                self.start = start;
                Ok(count)
            }
            None => Err(io::Error::from(ErrorKind::InvalidData)),
        }
    }
}

/// Opens the file `name`. `has_stdin` is true if the other input is standard input. Fails if the
/// file can't be opened. Also fails if `has_stdin` is true and the file gets descriptor 0, since
/// standard input is closed then.
fn open_file(rt: &HostRuntime, name: &str, has_stdin: bool) -> Result<fs::File> {
    match fs::open(rt, name) {
        Ok(file) => {
            if has_stdin && file.as_raw_fd() == 0 {
                return Err(trouble!("standard input is closed"));
            }
            Ok(file)
        }
        Err(error) => Err(trouble!("{error}").context(name)),
    }
}

/// Opens the input `name`: a file, or standard input if `name` is `-`. `has_stdin` is true if one
/// of the inputs is standard input. Fails if the file can't be opened, or if it is opened as
/// descriptor 0 while `has_stdin` is true, since standard input is closed then.
pub fn open(rt: &HostRuntime, name: &str, has_stdin: bool) -> Result<Source> {
    let input = if name == "-" {
        Input::Standard(rt.reader())
    } else {
        Input::File(open_file(rt, name, has_stdin)?)
    };
    Ok(Source {
        input,
        start: Start::Over,
    })
}

/// Opens the regular file `name` anew, to read it from its beginning, apart from the comparison.
/// Returns `None` if `name` is `-`, if it names no regular file, or if the file can't be opened.
pub fn open_again(rt: &HostRuntime, name: &str) -> Option<Source> {
    // Standard input can't be read again. A file named `-` is not opened either.
    if name == "-" {
        return None;
    }
    // A pipe is not opened, since that would wait for a writer.
    if !fs::metadata(rt, name).ok()?.is_file() {
        return None;
    }
    open(rt, name, false).ok()
}

/// Returns the sum of the sizes of two inputs in bytes, or `None` if a size is unknown or the sum
/// is too large.
pub fn total_of(left: &Source, right: &Source) -> Option<u64> {
    left.size()?.checked_add(right.size()?)
}
