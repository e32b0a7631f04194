//! The order of two byte strings, decided by their first bytes if these differ.

ghost use Rattle.std.specs.Prelude.{◌≡◌};
ghost use Rattle.polars_arrays_flat.specs.ByteOrder.{bytes_lt};

use polars_arrays_flat::byte_order::bytes_less;

/// Returns whether the left byte string is less than the right one. If their first bytes differ, no
/// other byte is read. In a search for the least or greatest row this is often the case.
#[inline(always)]
pub(crate) fn less_by_first(left: &[u8], right: &[u8]) -> bool
    ensures { result ≡ bytes_lt left.now right.now }
{
    match (left.first(), right.first()) {
        (Some(x), Some(y)) if x != y => x < y,
        _ => bytes_less(left, right),
    }
}
