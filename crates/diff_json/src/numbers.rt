//! Writes numbers in JSON.

ghost use Rattle.std.specs.Prelude.{◌≡◌, ◌++◌, OnOk};

use diff_words::decimals::push_decimal;
use itoa::Integer;
use std::alloc::AllocError;

/// Appends `before`, and then `n` in decimal. For example, `push_number(out, b",\"row\":", 3)`
/// appends `,"row":3`.
pub fn push_number<I: Integer>(out: &mut Vec<u8>, before: &[u8], n: I) -> Result<(), AllocError>
    ensures { OnOk result (out.new.items ≡ out.old.items ++ before.now ++ I.text n) }
{
    out.extend_from_slice(before)?;
    push_decimal(out, n)?;
    Ok(())
}
