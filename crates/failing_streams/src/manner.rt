//! Behaviour of the streams of a case, given by the words before it.

use anyhow::{Context, Result};

/// The behaviour of the reader and the writer of a case.
#[derive(Clone, Copy)]
pub struct Manner {
    /// Each call is interrupted once before it succeeds.
    pub interrupting: bool,
    /// A read that gives bytes reports one byte more than it gave, if the buffer has room for one.
    pub boasting: bool,
    /// After its last successful write, a writer accepts 0 bytes instead of failing.
    pub stopping: bool,
    /// Greatest number of bytes that a call gives or accepts.
    pub pace: usize,
}

impl Manner {
    /// Reads the words that may come before a case, and returns the manner that they describe and
    /// the rest of the line. Fails if `pieces` is not followed by a number and a space.
    pub fn read(line: &str) -> Result<(Manner, &str)> {
        let (line, interrupting) = take_word(line, "interrupted ");
        let (line, boasting) = take_word(line, "boasting ");
        let (line, stopping) = take_word(line, "stopping ");
        let (line, pace) = take_pace(line)?;
        let manner = Manner {
            interrupting,
            boasting,
            stopping,
            pace,
        };
        Ok((manner, line))
    }
}

/// Returns the rest of `line` after `word` and `true`, or `line` and `false` if `line` does not
/// begin with `word`.
fn take_word<'a>(line: &'a str, word: &str) -> (&'a str, bool) {
    match line.strip_prefix(word) {
        Some(rest) => (rest, true),
        None => (line, false),
    }
}

/// Returns the rest of `line` after `pieces N ` and the number `N`, or `line` and 1 if `line` does
/// not begin with `pieces `. Fails if `N` is not a number, or if no space follows it.
fn take_pace(line: &str) -> Result<(&str, usize)> {
    let Some(rest) = line.strip_prefix("pieces ") else {
        return Ok((line, 1));
    };
    let (pace, rest) = rest.split_once(' ').context("no pieces")?;
    Ok((rest, pace.parse()?))
}
