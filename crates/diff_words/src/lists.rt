//! Writes lists with a separator between elements.

ghost use Rattle.std.specs.Prelude.{◌≡◌, ◌++◌, OnOk};
ghost use Rattle.diff_words.specs.Lists.{gap};

use std::alloc::AllocError;

/// Appends the separator if `n` is not 0. A caller uses it before element `n` of a list, so that no
/// separator comes before the first element.
pub fn push_gap(out: &mut Vec<u8>, separator: &[u8], n: usize) -> Result<(), AllocError>
    ensures { OnOk result (out.new.items ≡ out.old.items ++ gap separator.now n) }
{
    if n > 0 {
        out.extend_from_slice(separator)?;
    }
    Ok(())
}
