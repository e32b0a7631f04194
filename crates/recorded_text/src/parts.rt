//! Functions that read the parts of arrays.
//!
//! In all of them, the error is `Word` if a word is missing or wrong, and `Memory` if an allocation
//! fails.

ghost use Rattle.std.specs.Prelude.{◌≡◌, ◌<◌, IfOk, IfSome};

use crate::fault::Fault;
use crate::words::Words;
use polars_arrays_bits::bitmap::Bitmap;
use polars_arrays_bits::buffer::Buffer;
use polars_arrays_bits::error::ComputeError;
use polars_arrays_numbers::native_type::NativeType;
use polars_arrays_views::view::View;
use std::alloc::Global;
use std::str::FromStr;

/// Says whether the parts of an array own their elements or share them.
#[derive(Clone, Copy, PartialEq, Eq, Debug)]
pub enum Kept {
    /// Each part owns its elements.
    Owned,
    /// Each part shares its elements with its clones.
    Shared,
}

impl Kept {
    /// Returns `Shared` and skips the next word if it is `shared`. Otherwise returns `Owned` and
    /// skips no word.
    pub fn read(words: &mut Words) -> Kept {
        if words.take("shared") {
            Kept::Shared
        } else {
            Kept::Owned
        }
    }

    /// Returns the buffer, converted to one that shares its elements with clones if `self` is
    /// `Shared`. The error is `Memory`.
    pub fn buffer<T: Copy>(self, alloc: Global, buffer: Buffer<T>) -> Result<Buffer<T>, Fault>
        ensures { IfOk result (λ kept. kept.items ≡ buffer.items) }
    {
        match self {
            Kept::Owned => Ok(buffer),
            Kept::Shared => Ok(buffer.share(alloc)?),
        }
    }

    /// Returns the bits, converted to bits that are shared with clones if `self` is `Shared`. The
    /// error is `Memory`.
    pub fn bits(self, alloc: Global, bits: Bitmap) -> Result<Bitmap, Fault>
        ensures { IfOk result (λ kept. kept ≡ bits) }
    {
        match self {
            Kept::Owned => Ok(bits),
            Kept::Shared => Ok(bits.share(alloc)?),
        }
    }
}

/// Reads bits from a word `b<at>:<digits>`, such as `b2:0110`. The digits are 0 or 1. Leaves out
/// the first `at` digits. The error is `Word` if the word has another form or fewer than `at`
/// digits.
pub fn read_bits(alloc: Global, word: &str) -> Result<Bitmap, Fault> {
    let Some((at, digits)) = word.split_once(':') else {
        return Err(Fault::Word);
    };
    let Some(at) = at.strip_prefix('b') else {
        return Err(Fault::Word);
    };
    let at = read_place(at)?;
    let bools = read_bools(alloc, digits)?;
    from_place(Bitmap::from_bools(alloc, &bools), at)
}

/// Converts the digits 0 and 1 to truth values. The error is `Word` for another character.
fn read_bools(alloc: Global, digits: &str) -> Result<Vec<bool>, Fault> {
    let mut bools = Vec::new(alloc);
    for digit in digits.as_bytes() {
        bools.push(read_bit(*digit)?)?;
    }
    Ok(bools)
}

/// Returns the bits from index `at` on. If `bits` is an error, returns it as a `Fault`. The error
/// is `Word` if there are fewer than `at` bits.
fn from_place(bits: Result<Bitmap, ComputeError>, at: usize) -> Result<Bitmap, Fault> {
    let mut bits = bits?;
    if at > bits.len() {
        return Err(Fault::Word);
    }
    let n = bits.len() - at;
    bits.slice(at, n);
    Ok(bits)
}

/// Converts the character `0` or `1` to a truth value. The error is `Word` for another character.
fn read_bit(digit: u8) -> Result<bool, Fault> {
    match digit {
        b'0' => Ok(false),
        b'1' => Ok(true),
        _ => Err(Fault::Word),
    }
}

/// Converts a word to a number. The error is `Word` if it is no number of the type `usize`.
fn read_place(word: &str) -> Result<usize, Fault> {
    match word.parse() {
        Ok(place) => Ok(place),
        Err(_) => Err(Fault::Word),
    }
}

/// Reads a validity from the next word: `None` if the word is `-`, otherwise bits in the form of
/// `read_bits`, which are shared if `kept` is `Shared`.
pub fn read_validity(
    alloc: Global,
    kept: Kept,
    words: &mut Words,
) -> Result<Option<Bitmap>, Fault> {
    let word = words.read()?;
    if word == "-" {
        return Ok(None);
    }
    Ok(Some(read_kept(alloc, kept, word)?))
}

/// Reads bits from `word`, such as `b2:0110`, in the form of `read_bits`. The bits are shared if
/// `kept` is `Shared`.
pub fn read_kept(alloc: Global, kept: Kept, word: &str) -> Result<Bitmap, Fault> {
    kept.bits(alloc, read_bits(alloc, word)?)
}

/// Returns the value of a hexadecimal digit, or `None` for another character. Capital letters are
/// no digits here.
fn digit_value(digit: u8) -> Option<u8>
    ensures { IfSome result (λ value. value < 16) }
{
    match digit {
        b'0'..=b'9' => Some(digit - b'0'),
        b'a'..=b'f' => Some(digit - b'a' + 10),
        _ => None,
    }
}

/// Returns the byte of two hexadecimal digits. The error is `Word` if one is no digit.
fn byte_of(high: u8, low: u8) -> Result<u8, Fault> {
    let (Some(high), Some(low)) = (digit_value(high), digit_value(low)) else {
        return Err(Fault::Word);
    };
    Ok(high * 16 + low)
}

/// Reads bytes from a word: `x` and two hexadecimal digits for each byte. The error is `Word` if
/// the word has another form.
pub fn read_bytes(alloc: Global, word: &str) -> Result<Vec<u8>, Fault> {
    let Some(digits) = word.strip_prefix('x') else {
        return Err(Fault::Word);
    };
    let digits = digits.as_bytes();
    if digits.len() % 2 != 0 {
        return Err(Fault::Word);
    }
    let mut bytes = Vec::new(alloc);
    for i in 0..digits.len() / 2 {
        bytes.push(byte_of(digits[2 * i], digits[2 * i + 1])?)?;
    }
    Ok(bytes)
}

/// Reads a count from the next word, and that many numbers from the words after it.
pub fn read_number_list<N: NativeType + FromStr<Err: Drop>>(
    alloc: Global,
    words: &mut Words,
) -> Result<Vec<N>, Fault> {
    let count: usize = words.read_number()?;
    let mut numbers = Vec::new(alloc);
    for _ in 0..count {
        numbers.push(words.read_number()?)?;
    }
    Ok(numbers)
}

/// Reads a count from the next word and that many numbers from the words after it, into a buffer.
pub fn read_numbers<N: NativeType + FromStr<Err: Drop>>(
    alloc: Global,
    words: &mut Words,
) -> Result<Buffer<N>, Fault> {
    let numbers = read_number_list(alloc, words)?;
    Ok(Buffer::from_vec(numbers))
}

/// Reads a count from the next word and that many numbers from the words after it, into a buffer
/// that is shared if `kept` is `Shared`.
pub(crate) fn read_kept_numbers<N: NativeType + FromStr<Err: Drop>>(
    alloc: Global,
    kept: Kept,
    words: &mut Words,
) -> Result<Buffer<N>, Fault> {
    kept.buffer(alloc, read_numbers(alloc, words)?)
}

/// Reads a view from a word that gives sixteen bytes in the form of `read_bytes`. The error is
/// `Word` if the word has another form or gives another number of bytes.
pub fn read_view(alloc: Global, word: &str) -> Result<View, Fault> {
    let bytes = read_bytes(alloc, word)?;
    match <[u8; 16]>::try_from(bytes.as_slice()) {
        Ok(bytes) => Ok(View::new(bytes)),
        Err(_) => Err(Fault::Word),
    }
}

/// Reads a count from the next word and that many views from the words after it, into a buffer.
pub fn read_views(alloc: Global, words: &mut Words) -> Result<Buffer<View>, Fault> {
    let count: usize = words.read_number()?;
    let mut views = Vec::new(alloc);
    for _ in 0..count {
        views.push(read_view(alloc, words.read()?)?)?;
    }
    Ok(Buffer::from_vec(views))
}

/// Reads bytes from the next word, into a buffer that is shared if `kept` is `Shared`.
pub fn read_byte_buffer(alloc: Global, kept: Kept, words: &mut Words) -> Result<Buffer<u8>, Fault> {
    let bytes = read_bytes(alloc, words.read()?)?;
    kept.buffer(alloc, Buffer::from_vec(bytes))
}

/// Reads a count from the next word and that many byte strings from the words after it, each into a
/// buffer of its own. The buffers are shared if `kept` is `Shared`.
pub fn read_buffers(
    alloc: Global,
    kept: Kept,
    words: &mut Words,
) -> Result<Vec<Buffer<u8>>, Fault> {
    let count: usize = words.read_number()?;
    let mut buffers = Vec::new(alloc);
    for _ in 0..count {
        let bytes = read_byte_buffer(alloc, kept, words)?;
        buffers.push(bytes)?;
    }
    Ok(buffers)
}
