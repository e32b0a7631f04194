//! Escapes for the control characters that JSON allows in strings.

ghost use Rattle.std.specs.Fmt.{digit_glyph};
ghost use Rattle.std.specs.Prelude.{◌≡◌, ◌<◌, ◌++◌, false, get_or, OnOk};
ghost use Rattle.json_plain.specs.Plain.{escape_text, is_escaped, is_high_control, plain_byte};
ghost use Rattle.json_plain.specs.Plain.{plain_json};

use std::alloc::AllocError;

/// Returns whether two bytes are the UTF-8 encoding of a control character from U+0080 to U+009F.
fn is_high_control(first: u8, second: u8) -> bool
    ensures { result ≡ is_high_control first second }
{
    first == 194 && 127 < second && second < 160
}

/// Returns whether the output for `byte` is an escape: the byte is U+007F, or the second byte of a
/// character from U+0080 to U+009F. `before` is the byte before it.
fn is_escaped(before: u8, byte: u8) -> bool
    ensures { result ≡ is_escaped before byte }
{
    byte == 127 || is_high_control(before, byte)
}

/// Returns the hexadecimal digit of a number below 16, as an ASCII byte in lower case.
fn hex_digit(n: u8) -> u8
    requires { n < 16 }
    ensures { result ≡ digit_glyph false n }
{
    if n < 10 { b'0' + n } else { b'a' + (n - 10) }
}

/// Appends the character of code `code` as `\u` and four hexadecimal digits.
fn push_escape(out: &mut Vec<u8>, code: u8) -> Result<(), AllocError>
    ensures { OnOk result (out.new.items ≡ out.old.items ++ escape_text code) }
{
    out.extend_from_slice(b"\\u00")?;
    out.push(hex_digit(code / 16))?;
    out.push(hex_digit(code % 16))?;
    Ok(())
}

/// Appends the output for `byte`. For the first byte of a character from U+0080 to U+009F this is
/// nothing, since its escape is written for the second byte. `before` and `after` are the adjacent
/// bytes, or 0 where there is none.
#[tactic(auto, unfolding(crate::specs::Plain::plain_byte))]
fn push_byte(out: &mut Vec<u8>, before: u8, byte: u8, after: u8) -> Result<(), AllocError>
    ensures { OnOk result (out.new.items ≡ out.old.items ++ plain_byte before byte after) }
{
    if is_high_control(byte, after) {
        return Ok(());
    }
    if is_escaped(before, byte) {
        push_escape(out, byte)?;
        return Ok(());
    }
    out.push(byte)?;
    Ok(())
}

/// Returns the byte at index `i`, or 0 if there is none.
fn byte_at(bytes: &[u8], i: usize) -> u8
    ensures { result ≡ get_or bytes.now i 0 }
{
    if i < bytes.len() { bytes[i] } else { 0 }
}

/// Appends a JSON text in UTF-8, in which each character from U+007F to U+009F is replaced by an
/// escape such as `\u0085`. All other bytes are unchanged. If an allocation fails, the beginning of
/// the output may have been appended.
pub fn push_plain_json(out: &mut Vec<u8>, text: &[u8]) -> Result<(), AllocError>
    ensures { OnOk result (out.new.items ≡ out.old.items ++ plain_json text.now) }
{
    let mut before = 0;
    for i in 0..text.len() {
        push_byte(out, before, text[i], byte_at(text, i + 1))?;
        before = text[i];
    }
    Ok(())
}
