//! Finds the place of a fault in a line, for messages. No contract says which place this is: the
//! `json` crate reports no offset of an error, and its contracts don't mention the offsets of
//! tokens.

use crate::fault::LineFault;
use crate::narrow::check_number;
use json::{Reader, Scratch, Token};
use json_decimals::error::NumberError;
use std::alloc::{AllocError, Global};
use std::collections::BTreeSet;
use std::str::from_utf8;

/// The greatest depth to which arrays and objects may nest.
const DEEPEST: usize = 128;

/// The state of a JSON reader. `are_objects` says for each open array or object, from the outermost
/// on, whether it is an object. `is_named` is `true` if the last token was the name of a member.
#[derive(Drop)]
struct Open {
    are_objects: Vec<bool>,
    is_named: bool,
}

impl Open {
    /// Returns whether a value may come next. `is_object` says whether the value is an object.
    /// Outside of all objects and arrays only an object may come.
    fn takes_value(&self, is_object: bool) -> bool {
        match self.are_objects.last() {
            Some(true) => self.is_named,
            Some(false) => true,
            None => is_object,
        }
    }

    /// Opens an object if `is_object` is `true`, and an array otherwise. Opens nothing and returns
    /// `false` if no value may come next, or if `DEEPEST` arrays and objects are open already.
    fn begin(&mut self, is_object: bool) -> Result<bool, AllocError> {
        if !self.takes_value(is_object) || self.are_objects.len() >= DEEPEST {
            return Ok(false);
        }
        self.are_objects.push(is_object)?;
        self.is_named = false;
        Ok(true)
    }

    /// Closes an object if `is_object` is `true`, and an array otherwise. Returns `false` if the
    /// innermost open one is of the other kind, if none is open, or if a member lacks its value.
    /// The state has no meaning after `false`.
    fn end(&mut self, is_object: bool) -> bool {
        !self.is_named && self.are_objects.pop() == Some(is_object)
    }

    /// Updates the state for the next token. Returns `false` if the token is not allowed here. The
    /// state has no meaning after `false`.
    fn pass(&mut self, token: Token<'_>) -> Result<bool, AllocError> {
        match token {
            Token::Bad => Ok(false),
            Token::BeginObject => self.begin(true),
            Token::BeginArray => self.begin(false),
            Token::EndObject => Ok(self.end(true)),
            Token::EndArray => Ok(self.end(false)),
            Token::Key(_) => {
                let may_stand = self.are_objects.last() == Some(&true) && !self.is_named;
                self.is_named = true;
                Ok(may_stand)
            }
            _ => {
                let may_stand = self.takes_value(false);
                self.is_named = false;
                Ok(may_stand)
            }
        }
    }
}

/// Returns whether a byte is JSON whitespace.
fn is_blank(byte: u8) -> bool {
    matches!(byte, b' ' | b'\t' | b'\r' | b'\n')
}

/// Returns the offset of the first byte at or after `from` that is not JSON whitespace, or the
/// length of the text if there is none.
fn past_blanks(text: &[u8], from: usize) -> usize {
    for place in from..text.len() {
        if !is_blank(text[place]) {
            return place;
        }
    }
    text.len()
}

/// Returns the byte offset at which `text` stops being a single JSON object. This is the offset of
/// the first token that is not allowed or, after a complete object, of the first byte that is not
/// whitespace. If there is neither, this is the length of the text. The reader takes a name
/// together with its colon as one token, and a comma together with the token before it.
fn invalid_json_offset(
    alloc: Global,
    text: &str,
    scratch: &mut Scratch,
) -> Result<usize, AllocError> {
    let mut reader = Reader::new(text, scratch)?;
    let mut open = Open {
        are_objects: Vec::new(alloc),
        is_named: false,
    };
    for _ in 0..=text.len() {
        let place = reader.offset();
        let Some(token) = reader.next() else {
            break;
        };
        if !open.pass(token)? {
            return Ok(place);
        }
        if open.are_objects.is_empty() {
            return Ok(past_blanks(text.as_bytes(), place.saturating_add(1)));
        }
    }
    Ok(text.len())
}

/// Returns the offset of the first name that an earlier member of the same object has too, or 0 if
/// there is no such name.
fn second_name_place(
    alloc: Global,
    text: &str,
    scratch: &mut Scratch,
) -> Result<usize, AllocError> {
    let mut reader = Reader::new(text, scratch)?;
    let mut open: Vec<BTreeSet<&str>> = Vec::new(alloc);
    for _ in 0..=text.len() {
        let place = reader.offset();
        match reader.next() {
            None => break,
            Some(Token::BeginObject) => open.push(BTreeSet::new(alloc))?,
            Some(Token::EndObject) => {
                open.pop();
            }
            Some(Token::Key(name)) => {
                if let Some(names) = open.last_mut()
                    && !names.insert(name)?
                {
                    return Ok(place);
                }
            }
            Some(_) => {}
        }
    }
    Ok(0)
}

/// Returns the offset of the first number whose exponent has more than 30 digits, or 0 if there is
/// none. `room` is memory that may be overwritten.
fn wide_place(text: &str, scratch: &mut Scratch, room: &mut Vec<u8>) -> Result<usize, AllocError> {
    let mut reader = Reader::new(text, scratch)?;
    for _ in 0..=text.len() {
        let place = reader.offset();
        match reader.next() {
            None => break,
            Some(Token::Number(number)) => match check_number(room, number) {
                Ok(()) => {}
                Err(NumberError::Memory) => return Err(AllocError),
                Err(NumberError::WideExponent) => return Ok(place),
            },
            Some(_) => {}
        }
    }
    Ok(0)
}

/// Returns the column of the byte at offset `place` of a line: the number of characters before it,
/// plus 1.
fn column_at(line: &[u8], place: usize) -> u64 {
    let before = line
        .iter()
        .take(place)
        .filter(|byte| **byte & 0xc0 != 0x80)
        .count();
    (before as u64).saturating_add(1)
}

/// Returns the byte offset of a fault in `text`. Returns `None` for `NoPart`, which has no offset.
/// `room` is memory that may be overwritten.
fn place_of(
    alloc: Global,
    text: &str,
    fault: LineFault,
    scratch: &mut Scratch,
    room: &mut Vec<u8>,
) -> Result<Option<usize>, AllocError> {
    let place = match fault {
        LineFault::Invalid => invalid_json_offset(alloc, text, scratch)?,
        LineFault::RepeatedName => second_name_place(alloc, text, scratch)?,
        LineFault::WideExponent => wide_place(text, scratch, room)?,
        LineFault::NoObject => past_blanks(text.as_bytes(), 0),
        LineFault::NoPart { .. } => return Ok(None),
    };
    Ok(Some(place))
}

/// Returns the column of `fault`, the fault of `line`. Columns are counted in characters, from 1
/// on. If the line is not UTF-8, the result is the column of the first invalid byte. Returns `None`
/// for `NoPart`, which has no column. `room` is memory that may be overwritten.
pub fn column_of(
    alloc: Global,
    line: &[u8],
    fault: LineFault,
    scratch: &mut Scratch,
    room: &mut Vec<u8>,
) -> Result<Option<u64>, AllocError> {
    let place = match from_utf8(line) {
        Ok(text) => place_of(alloc, text, fault, scratch, room)?,
        Err(error) => Some(error.valid_up_to()),
    };
    Ok(place.map(|place| column_at(line, place)))
}
