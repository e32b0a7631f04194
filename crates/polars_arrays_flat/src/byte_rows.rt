//! Arrays that store byte strings.

ghost use Rattle.std.specs.Prelude.{◌≡◌, ◌≤◌, ◌<◌, ℕ, List, [], length, take, slice_index_or};
ghost use Rattle.polars_arrays_flat.specs.StoredRows.{byte_slots};

use crate::array::Array;

/// An array that stores byte strings, or texts as UTF-8. The strings are read by index, also under
/// nulls.
pub trait ByteRows: Array {
    // The byte strings, the first one first.
    ghost strings: { Self → List (List ℕ) };

    /// Returns the number of byte strings.
    fn count(&self) -> usize
        ensures { result ≡ length (strings self.now) };

    /// Returns the byte string at index `i`, also if its row is null.
    fn bytes(&self, i: usize) -> &[u8]
        requires { i < length (strings self.now) }
        ensures { result.now ≡ slice_index_or (strings self.now) i [] };

    /// Returns a slice that begins with the byte string at index `i`, and the string's length in
    /// bytes. The slice may be longer than the string, so that a short string can be read as one
    /// block of 16 bytes.
    #[inline(always)]
    fn bytes_on(&self, i: usize) -> (&[u8], usize)
        requires { i < length (strings self.now) }
        ensures within { result.1 ≤ length result.0.now }
        ensures string { take result.1 result.0.now ≡ slice_index_or (strings self.now) i [] }
    {
        let bytes = self.bytes(i);
        (bytes, bytes.len())
    }

    // The stored rows are these byte strings.
    ghost slots_law: { (a : Self) → Self.slots a ≡ byte_slots (strings a) };
}
