//! Functions that write results as text.

use polars_arrays_bits::bitmap::Bitmap;
use recorded_text::bits_text::write_bits;
use recorded_text::fault::Fault;
use std::alloc::Global;
use std::fmt::Display;

/// Returns the text of a value.
pub fn write_value<N: Display + Drop>(alloc: Global, value: N) -> Result<String, Fault> {
    value.to_string(alloc).map_err(Fault::from)
}

/// Returns the text of the value in `found`, or `none` if there is no value.
pub fn write_found<N: Display + Drop>(alloc: Global, found: Option<N>) -> Result<String, Fault> {
    match found {
        Some(found) => write_value(alloc, found),
        None => write_value(alloc, "none"),
    }
}

/// Returns the text of `numbers` in brackets, separated by single spaces, such as `[1 2 3]`.
pub fn write_numbers<N: Display>(alloc: Global, numbers: &[N]) -> Result<String, Fault> {
    let mut text = String::new(alloc);
    push_numbers(&mut text, numbers)?;
    Ok(text)
}

/// Appends `numbers` to `text` in brackets, separated by single spaces.
fn push_numbers<N: Display>(text: &mut String, numbers: &[N]) -> Result<(), Fault> {
    text.push('[')?;
    for i in 0..numbers.len() {
        if i > 0 {
            text.push(' ')?;
        }
        write!(text, "{}", numbers[i])?;
    }
    text.push(']').map_err(Fault::from)
}

/// Returns the results in `told`, followed by the text of `bits` as the last result. If `told` is
/// an error, returns it.
pub fn write_told(
    alloc: Global,
    told: Result<Told, Fault>,
    bits: &Bitmap,
) -> Result<String, Fault> {
    told?.with_bits(alloc, bits)
}

/// The text of the results of the operations of one line, separated by single spaces.
#[derive(Drop)]
pub struct Told {
    text: String,
}

impl Told {
    /// Creates an empty list of results.
    pub fn new(alloc: Global) -> Told {
        Told {
            text: String::new(alloc),
        }
    }

    /// Appends the text `answer` as a result.
    pub fn add(&mut self, answer: &str) -> Result<(), Fault> {
        if !self.text.is_empty() {
            self.text.push(' ')?;
        }
        self.text.push_str(answer).map_err(Fault::from)
    }

    /// Appends the text in `answer` as a result. If `answer` is an error, returns it.
    pub fn add_found(&mut self, answer: Result<&str, Fault>) -> Result<(), Fault> {
        self.add(answer?)
    }

    /// Appends the text in `answer` as a result. If `answer` is an error, returns it.
    pub fn add_text(&mut self, answer: Result<String, Fault>) -> Result<(), Fault> {
        let answer = answer?;
        self.add(&answer)
    }

    /// Appends the text of `value` as a result.
    pub fn add_value<N: Display + Drop>(&mut self, alloc: Global, value: N) -> Result<(), Fault> {
        self.add_text(write_value(alloc, value))
    }

    // Returns the text of all results, followed by the text of `bits` as the last result.
    fn with_bits(mut self, alloc: Global, bits: &Bitmap) -> Result<String, Fault> {
        self.add_text(write_bits(alloc, bits))?;
        Ok(self.into_text())
    }

    /// Returns the text of all results.
    pub fn into_text(self) -> String {
        let Told { text } = self;
        text
    }
}
