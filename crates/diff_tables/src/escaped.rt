//! Encodes byte strings so that several of them can be concatenated without ambiguity.

ghost use Rattle.std.specs.Prelude.{◌≡◌, ◌++◌, OnOk};
ghost use Rattle.diff_tables.specs.Keys.{escaped, marked};

use std::alloc::AllocError;

/// Appends `byte` to `out`. A zero byte is written as the two bytes 0 and 1.
fn push_byte(out: &mut Vec<u8>, byte: u8) -> Result<(), AllocError>
    ensures { OnOk result (out.new.items ≡ out.old.items ++ marked byte) }
{
    if byte == 0 {
        out.push(0)?;
        out.push(1)?;
        return Ok(());
    }
    out.push(byte)?;
    Ok(())
}

/// Appends `string` to `out` byte by byte, and then two zero bytes as an end mark. Each zero byte
/// of `string` is written as the two bytes 0 and 1.
fn push_marked(out: &mut Vec<u8>, string: &[u8]) -> Result<(), AllocError>
    ensures { OnOk result (out.new.items ≡ out.old.items ++ escaped string.now) }
{
    for byte in string {
        push_byte(out, *byte)?;
    }
    out.push(0)?;
    out.push(0)?;
    Ok(())
}

/// Appends `string` to `out`, and then two zero bytes as an end mark. Each zero byte of `string` is
/// written as the two bytes 0 and 1. A string without zero bytes is copied as a whole.
pub(crate) fn push_escaped(out: &mut Vec<u8>, string: &[u8]) -> Result<(), AllocError>
    ensures { OnOk result (out.new.items ≡ out.old.items ++ escaped string.now) }
{
    if string.contains(&0) {
        return push_marked(out, string);
    }
    out.extend_from_slice(string)?;
    out.extend_from_slice(&[0, 0])?;
    Ok(())
}
