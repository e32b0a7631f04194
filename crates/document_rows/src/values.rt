//! Parses a line as a document, or finds the fault because of which it is not a document.

ghost use Rattle.std.specs.Prelude.{◌≡◌, List, None, Some, IfErr, IfOk, IfSome, MatchResult};
ghost use Rattle.std.specs.Str.{IsUtf8};
ghost use Rattle.json.specs.Json.{document};
ghost use Rattle.json.specs.Strict.{HasUniqueKeys};
ghost use Rattle.json.specs.Value.{value_view};
ghost use Rattle.json_normal.specs.Narrow.{HasNarrowNumbers};
ghost use Rattle.json_paths.specs.Paths as paths;
ghost use Rattle.json_paths.specs.Views.{paths_view};
ghost use Rattle.document_rows.specs.Documents.{HasKeys, HasParts, IsDocument};
ghost use Rattle.document_rows.specs.Errors.{IsObject};
ghost use Rattle.document_rows.specs.Reading.{IsKeyFault, IsTrouble, IsTroubleMemory, LacksPart};
ghost use Rattle.document_rows.specs.declared.reading.Reading.{Reading};

use crate::reading::Reading;
use document_faults::fault::LineFault;
use document_faults::narrow::check_narrow;
use json::{Error, Scratch, Value};
use json_decimals::error::NumberError;
use json_paths::path::Path;
use std::alloc::{AllocError, AllocFailed, Global};

/// An error of reading a line as a document.
#[derive(Drop)]
pub(crate) enum Trouble {
    /// An allocation failed.
    Memory,
    /// The line is not a document, because of this fault.
    Fault(LineFault),
}

impl From<AllocError> for Trouble {
    ghost from_gives = { λ _ r. IsTroubleMemory r };

    fn from(_failed: AllocError) -> Trouble {
        Trouble::Memory
    }
}

impl<T: Drop> From<AllocFailed<T>> for Trouble {
    ghost from_gives = { λ _ r. IsTroubleMemory r };

    fn from(_failed: AllocFailed<T>) -> Trouble {
        Trouble::Memory
    }
}

/// Parses a line as a JSON value. Fails with the fault `Invalid` if the line is not UTF-8 or not
/// JSON or nests too deeply, with the fault `RepeatedName` if an object has two members with the
/// same name, and with `Memory` if an allocation fails.
fn parsed<'a>(alloc: Global, line: &'a [u8], scratch: &'a mut Scratch) -> Result<Value<'a>, Trouble>
    ensures { MatchResult result
        (λ v. IsUtf8 line.now × (document line.now ≡ Some (value_view v))
        × HasUniqueKeys (value_view v))
        (λ trouble. (reading : Reading) (keys : List paths.Path)
        → IsTrouble reading keys line.now trouble) }
{
    let Ok(text) = std::str::from_utf8(line) else {
        return Err(Trouble::Fault(LineFault::Invalid));
    };
    match Value::parse_strict(alloc, text, scratch) {
        Ok(value) => Ok(value),
        Err(Error::Invalid) => Err(Trouble::Fault(LineFault::Invalid)),
        Err(Error::DuplicateKey) => Err(Trouble::Fault(LineFault::RepeatedName)),
        Err(Error::OutOfMemory) => Err(Trouble::Memory),
        Err(Error::TooLong) => unreachable!(),
    }
}

/// Parses a line as a JSON object. `room` is memory that may be overwritten.
///
/// Fails with the fault `Invalid` if the line is not UTF-8 or not JSON or nests too deeply, with
/// the fault `RepeatedName` if an object has two members with the same name, with the fault
/// `NoObject` if the line is another JSON value, and with the fault `WideExponent` if the exponent
/// of a number has more than 30 digits, not counting leading zeros. Fails with `Memory` if an
/// allocation fails.
pub(crate) fn object_of<'a>(
    alloc: Global,
    line: &'a [u8],
    scratch: &'a mut Scratch,
    room: &mut Vec<u8>,
) -> Result<Value<'a>, Trouble>
    ensures utf8 { IfOk result (λ _. IsUtf8 line.now) }
    ensures value { IfOk result
        (λ v. (document line.now ≡ Some (value_view v)) × IsObject (value_view v)
        × HasUniqueKeys (value_view v) × HasNarrowNumbers (value_view v)) }
    ensures trouble { IfErr result
        (λ trouble. (reading : Reading) (keys : List paths.Path)
        → IsTrouble reading keys line.now trouble) }
{
    let value = parsed(alloc, line, scratch)?;
    let Value::Object(_) = &value else {
        return Err(Trouble::Fault(LineFault::NoObject));
    };
    match check_narrow(room, &value) {
        Ok(()) => Ok(value),
        Err(NumberError::Memory) => Err(Trouble::Memory),
        Err(NumberError::WideExponent) => Err(Trouble::Fault(LineFault::WideExponent)),
    }
}

/// Returns the index of the first key at which `value` has no value, or `None` if it has a value at
/// each key.
fn missing_key(value: &Value<'_>, keys: &[Path]) -> Option<usize>
    ensures parts { result ≡ None → HasParts (paths_view keys.now) (value_view value.now) }
    ensures missing { IfSome result (LacksPart (paths_view keys.now) (value_view value.now)) }
{
    for key in 0..keys.len() {
        if keys[key].part_of(value).is_none() {
            return Some(key);
        }
    }
    None
}

/// Checks that the document `value` has a value at each of `keys`. Fails with `NoPart` for the
/// first key at which it has none. Checks nothing if `reading` allows null keys.
fn check_keys(value: &Value<'_>, keys: &[Path], reading: Reading) -> Result<(), LineFault>
    ensures { MatchResult result
        (λ _. HasKeys reading (paths_view keys.now) (value_view value.now))
        (IsKeyFault reading (paths_view keys.now) (value_view value.now)) }
{
    if reading.null_keys {
        return Ok(());
    }
    match missing_key(value, keys) {
        Some(key) => Err(LineFault::NoPart { key }),
        None => Ok(()),
    }
}

/// Parses a line as a document: a JSON object that has a value at each of `keys`, unless `reading`
/// allows null keys. Fails with `Fault` if the line is not a document, and with `Memory` if an
/// allocation fails. `room` is memory that may be overwritten.
pub(crate) fn document_in<'a>(
    alloc: Global,
    line: &'a [u8],
    keys: &[Path],
    reading: Reading,
    scratch: &'a mut Scratch,
    room: &mut Vec<u8>,
) -> Result<Value<'a>, Trouble>
    ensures document { MatchResult result
        (λ _. IsDocument reading (paths_view keys.now) line.now)
        (IsTrouble reading (paths_view keys.now) line.now) }
    ensures value { IfOk result
        (λ v. (document line.now ≡ Some (value_view v)) × HasUniqueKeys (value_view v)
        × HasNarrowNumbers (value_view v)) }
{
    let value = object_of(alloc, line, scratch, room)?;
    match check_keys(&value, keys, reading) {
        Ok(()) => Ok(value),
        Err(fault) => Err(Trouble::Fault(fault)),
    }
}
