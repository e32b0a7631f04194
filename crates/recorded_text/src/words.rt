//! The words of a line, one after the other.

use crate::fault::Fault;
use std::str::FromStr;

/// The words of a line, and the index of the next one.
#[derive(Drop)]
pub struct Words<'a> {
    words: &'a [&'a str],
    next: usize,
}

impl<'a> Words<'a> {
    /// Creates a reader that starts at the first word.
    pub fn new(words: &'a [&'a str]) -> Words<'a> {
        Words { words, next: 0 }
    }

    /// Returns the next word, and moves on. The error is `Word` if no word is left.
    pub fn read(&mut self) -> Result<&'a str, Fault> {
        match self.words.get(self.next) {
            Some(word) => {
                self.next += 1;
                Ok(*word)
            }
            None => Err(Fault::Word),
        }
    }

    /// Reads the next word and converts it to a number. The error is `Word` if no word is left, or
    /// if the word is no number of the type `N`.
    pub fn read_number<N: FromStr<Err: Drop>>(&mut self) -> Result<N, Fault> {
        match self.read()?.parse() {
            Ok(number) => Ok(number),
            Err(_) => Err(Fault::Word),
        }
    }

    /// Skips the next word and returns `true` if it is `word`. Otherwise skips nothing and returns
    /// `false`.
    pub fn take(&mut self, word: &str) -> bool {
        match self.words.get(self.next) {
            Some(next) if *next == word => {
                self.next += 1;
                true
            }
            _ => false,
        }
    }

    /// Returns all words that are left, and marks them as read.
    pub fn rest(&mut self) -> &'a [&'a str] {
        let rest = self.words.get(self.next..).unwrap_or_default();
        self.next = self.words.len();
        rest
    }

    /// Returns whether all words were read.
    pub fn are_read(&self) -> bool {
        self.next >= self.words.len()
    }
}
