//! Writes byte strings between quotes.

ghost use Rattle.std.specs.Fmt.{digit_glyph};
ghost use Rattle.std.specs.Prelude.{◌≡◌, ◌<◌, ◌++◌, false, get_or, OnOk};
ghost use Rattle.diff_words.specs.Quoted.{byte_text, hex_text, is_hidden, is_high_control};
ghost use Rattle.diff_words.specs.Quoted.{letter_of, quoted};

use std::alloc::AllocError;

/// Returns the character after the backslash in the short escape of a byte, such as `n` for a line
/// feed. Returns `None` if the byte has no short escape.
fn letter_of(byte: u8) -> Option<u8>
    ensures { result ≡ letter_of byte }
{
    match byte {
        b'"' => Some(b'"'),
        b'\\' => Some(b'\\'),
        b'\n' => Some(b'n'),
        b'\r' => Some(b'r'),
        b'\t' => Some(b't'),
        _ => None,
    }
}

/// Returns whether two bytes are the UTF-8 encoding of a control character from U+0080 to U+009F.
fn is_high_control(first: u8, second: u8) -> bool
    ensures { result ≡ is_high_control first second }
{
    first == 194 && 127 < second && second < 160
}

/// Returns whether `byte` is a control character, or one of the two bytes that encode one. `before`
/// and `after` are the bytes before and after it, or 0 at an end of the string.
fn is_hidden(before: u8, byte: u8, after: u8) -> bool
    ensures { result ≡ is_hidden before byte after }
{
    byte < 32 || byte == 127 || is_high_control(before, byte) || is_high_control(byte, after)
}

/// Returns `n` as a hexadecimal digit. The digits from 10 on are lower case letters.
fn hex_digit(n: u8) -> u8
    requires { n < 16 }
    ensures { result ≡ digit_glyph false n }
{
    if n < 10 { b'0' + n } else { b'a' + (n - 10) }
}

/// Appends `\x` and a byte as two hexadecimal digits.
fn push_hex(out: &mut Vec<u8>, byte: u8) -> Result<(), AllocError>
    ensures { OnOk result (out.new.items ≡ out.old.items ++ hex_text byte) }
{
    out.extend_from_slice(b"\\x")?;
    out.push(hex_digit(byte / 16))?;
    out.push(hex_digit(byte % 16))?;
    Ok(())
}

/// Appends a byte of a quoted string: unchanged, or escaped if it is a quote, a backslash or part
/// of a control character. `before` and `after` are the bytes before and after it, or 0 at an end
/// of the string.
#[tactic(auto, unfolding(crate::specs::Quoted::byte_text))]
fn push_byte(out: &mut Vec<u8>, before: u8, byte: u8, after: u8) -> Result<(), AllocError>
    ensures { OnOk result (out.new.items ≡ out.old.items ++ byte_text before byte after) }
{
    if let Some(letter) = letter_of(byte) {
        out.push(b'\\')?;
        out.push(letter)?;
        return Ok(());
    }
    if is_hidden(before, byte, after) {
        push_hex(out, byte)?;
        return Ok(());
    }
    out.push(byte)?;
    Ok(())
}

/// Returns byte `i` of `bytes`, or 0 if `bytes` has no byte `i`.
fn byte_at(bytes: &[u8], i: usize) -> u8
    ensures { result ≡ get_or bytes.now i 0 }
{
    if i < bytes.len() { bytes[i] } else { 0 }
}

/// Appends a byte string between double quotes. Quotes, backslashes and control characters are
/// escaped. All other bytes are unchanged, also those that are not UTF-8.
pub(crate) fn push_quoted(out: &mut Vec<u8>, bytes: &[u8]) -> Result<(), AllocError>
    ensures { OnOk result (out.new.items ≡ out.old.items ++ quoted bytes.now) }
{
    out.push(b'"')?;
    let mut before = 0;
    for i in 0..bytes.len() {
        push_byte(out, before, bytes[i], byte_at(bytes, i + 1))?;
        before = bytes[i];
    }
    out.push(b'"')?;
    Ok(())
}
