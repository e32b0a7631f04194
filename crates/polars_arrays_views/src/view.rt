//! Views: sixteen bytes that hold the length and the bytes of a row, or say where its bytes lie.

ghost use Rattle.std.specs.Prelude.{◌≡◌, ◌≤◌, ◌<◌, ◌+◌, ◌↔◌, ℕ, List, IsTrue, length, take, drop};
ghost use Rattle.std.specs.Int.{w32, w64, w128, from_le_bytes, from_be_bytes};
ghost use Rattle.std.specs.Str.{IsAscii};
ghost use Rattle.polars_arrays_flat.specs.ByteOrder.{bytes_lt};
ghost use Rattle.polars_arrays_views.specs.Parts.{contents};
ghost use Rattle.polars_arrays_views.specs.Views.{short_view, is_short, IsView, GoodView, InBuffer};
ghost use Rattle.polars_arrays_views.specs.Views.{AllZero, buffer_at, row_bytes, view_len};
ghost use Rattle.polars_arrays_views.specs.Views.{view_buffer, view_offset, view_prefix};

use polars_arrays_bits::buffer::Buffer;
use polars_arrays_flat::byte_order::pair_less;
use std::marker::Model;
use std::simd::prelude::*;

/// A view: sixteen bytes that describe a row. Bytes 0 to 3 are the row's length. A row of at most
/// 12 bytes follows in bytes 4 to 15, padded with zeros. For a longer row, bytes 4 to 7 are its
/// prefix (its first four bytes), bytes 8 to 11 the index of its buffer, and bytes 12 to 15 its
/// offset in that buffer. Numbers are little-endian and unsigned. Any sixteen bytes make a view;
/// `is_good` checks whether they describe a row.
///
/// For example, the view of the row `abc` is
/// `[3, 0, 0, 0, b'a', b'b', b'c', 0, 0, 0, 0, 0, 0, 0, 0, 0]`.
#[derive(Clone, Copy, PartialEq, Eq, Debug)]
pub struct View {
    bytes: [u8; 16],
}

impl Model for View {
    ghost use Rattle.std.specs.Prelude.{List, ℕ};

    ghost Value = { List ℕ };

    ghost view = { λ v. v.bytes };

    ghost inverse = { λ bytes. record { bytes = bytes } };
}

impl View {
    /// Creates a view of any sixteen bytes.
    pub fn new(bytes: [u8; 16]) -> View
        ensures { result ≡ bytes }
    {
        View { bytes }
    }

    /// Creates the view that holds a row of at most 12 bytes.
    pub fn of_short(bytes: &[u8]) -> View
        requires { length bytes.now ≤ 12 }
        ensures stored { result ≡ short_view bytes.now }
        ensures good { (buffers : List (List ℕ)) → GoodView buffers result }
        ensures row { (buffers : List (List ℕ)) → row_bytes buffers result ≡ bytes.now }
    {
        let mut all = [0u8; 16];
        all[0] = bytes.len() as u8;
        all[4..4 + bytes.len()].copy_from_slice(bytes);
        View { bytes: all }
    }

    /// Returns the sixteen bytes as a little-endian number.
    pub fn as_u128(&self) -> u128
        ensures { result ≡ from_le_bytes w128 self.now }
    {
        u128::from_le_bytes(self.bytes)
    }

    /// Returns the length of the row in bytes.
    #[inline]
    #[tactic(auto, unfolding(crate::specs::Views::view_len))]
    pub fn len(&self) -> usize
        ensures length { result ≡ view_len self.now }
        ensures small { result < 4294967296 }
        ensures view { IsView self.now }
    {
        let b = &self.bytes;
        u32::from_le_bytes([b[0], b[1], b[2], b[3]]) as usize
    }

    /// Returns whether the view holds the whole row, which is so if the row has at most 12 bytes.
    #[inline(always)]
    pub fn is_short(&self) -> bool
        ensures { result ≡ is_short self.now }
    {
        self.len() <= 12
    }

    /// Returns whether all sixteen bytes are ASCII. If so, a row of at most 12 bytes is ASCII too.
    #[inline]
    pub fn is_ascii(&self) -> bool
        ensures { IsTrue result → IsAscii self.now }
    {
        self.bytes.is_ascii()
    }

    /// Returns the index of the row's buffer. It has no meaning for a row of at most 12 bytes.
    #[inline]
    #[tactic(auto, unfolding(crate::specs::Views::view_buffer))]
    pub fn buffer(&self) -> usize
        ensures { result ≡ view_buffer self.now }
    {
        let b = &self.bytes;
        u32::from_le_bytes([b[8], b[9], b[10], b[11]]) as usize
    }

    /// Returns the offset of the row in its buffer, in bytes. It has no meaning for a row of at
    /// most 12 bytes.
    #[inline]
    #[tactic(auto, unfolding(crate::specs::Views::view_offset))]
    pub fn offset(&self) -> usize
        ensures value { result ≡ view_offset self.now }
        ensures small { result < 4294967296 }
    {
        let b = &self.bytes;
        u32::from_le_bytes([b[12], b[13], b[14], b[15]]) as usize
    }

    /// Returns the bytes of the row, which must be at most 12.
    #[inline]
    pub fn inlined(&self) -> &[u8]
        requires { view_len self.now ≤ 12 }
        ensures { result.now ≡ take (view_len self.now) (drop 4 self.now) }
    {
        let len = self.len();
        &self.bytes[4..4 + len]
    }

    /// Returns the bytes of the row. The row must lie in one of `buffers` and begin with the view's
    /// prefix.
    #[inline]
    pub fn in_buffer<'a>(&self, buffers: &'a [Buffer<u8>]) -> &'a [u8]
        requires { InBuffer (contents buffers.now) self.now }
        ensures { result.now
            ≡ take (view_len self.now)
            (drop (view_offset self.now)
            (buffer_at (contents buffers.now) (view_buffer self.now))) }
    {
        let at = self.offset();
        let buffer = &buffers[self.buffer()];
        &buffer.as_slice()[at..at + self.len()]
    }

    /// Returns whether the view is good. A row of at most 12 bytes must be padded with zeros. A
    /// longer row must lie in one of `buffers` and begin with the view's prefix.
    pub fn is_good(&self, buffers: &[Buffer<u8>]) -> bool
        ensures { IsTrue result ↔ GoodView (contents buffers.now) self.now }
    {
        let len = self.len();
        if len <= 12 {
            is_zero(&self.bytes[4 + len..])
        } else {
            self.is_in_buffer(buffers)
        }
    }

    // Returns whether the row lies in one of `buffers` and begins with the view's prefix. The row
    // must have more than 12 bytes.
    fn is_in_buffer(&self, buffers: &[Buffer<u8>]) -> bool
        requires { 12 < view_len self.now }
        ensures { IsTrue result ↔ InBuffer (contents buffers.now) self.now }
    {
        match buffers.get(self.buffer()) {
            Some(buffer) => {
                let bytes = buffer.as_slice();
                let at = self.offset();
                at + self.len() <= bytes.len() && bytes[at..at + 4] == self.bytes[4..8]
            }
            None => false,
        }
    }

    /// Returns whether the first eight bytes of both views are equal: the lengths and the prefixes.
    #[inline]
    pub fn same_head(&self, other: &View) -> bool
        ensures { IsTrue result ↔ (take 8 self.now ≡ take 8 other.now) }
    {
        self.head() == other.head()
    }

    /// Returns whether the last eight bytes of both views are equal.
    #[inline]
    pub fn same_tail(&self, other: &View) -> bool
        ensures { IsTrue result ↔ (drop 8 self.now ≡ drop 8 other.now) }
    {
        self.tail() == other.tail()
    }

    /// Returns whether all sixteen bytes are equal, by one comparison.
    #[inline(always)]
    pub fn same_bytes(&self, other: &View) -> bool
        ensures { IsTrue result ↔ (self.now ≡ other.now) }
    {
        let differ = u8x16::from_array(self.bytes).simd_ne(u8x16::from_array(other.bytes));
        differ.to_bitmask() == 0
    }

    /// Returns bytes 4 to 7, the prefix of the row, as a big-endian number.
    #[inline]
    pub fn prefix(&self) -> u32
        ensures { result ≡ from_be_bytes w32 (view_prefix self.now) }
    {
        let b = &self.bytes;
        u32::from_be_bytes([b[4], b[5], b[6], b[7]])
    }

    /// Returns whether the row is less than the row of `other`, byte by byte. Both rows must have
    /// at most 12 bytes, padded with zeros.
    #[inline(always)]
    pub fn inlined_less(&self, other: &View) -> bool
        requires short { view_len self.now ≤ 12 }
        requires other_short { view_len other.now ≤ 12 }
        requires zeros { AllZero (drop (4 + view_len self.now) self.now) }
        requires other_zeros { AllZero (drop (4 + view_len other.now) other.now) }
        ensures { result
            ≡ bytes_lt (take (view_len self.now) (drop 4 self.now))
            (take (view_len other.now) (drop 4 other.now)) }
    {
        let (p, q) = (self.prefix(), other.prefix());
        let (s, t) = (self.rest(), other.rest());
        // no branch depends on the bytes
        (p < q) | ((p == q) & pair_less(s, t, self.len(), other.len()))
    }

    // Returns the last eight bytes as a big-endian number.
    #[inline(always)]
    fn rest(&self) -> u64
        ensures { result ≡ from_be_bytes w64 (drop 8 self.now) }
    {
        let b = &self.bytes;
        u64::from_be_bytes([b[8], b[9], b[10], b[11], b[12], b[13], b[14], b[15]])
    }

    // Returns the first eight bytes as a little-endian number.
    #[inline]
    fn head(&self) -> u64
        ensures value { result ≡ from_le_bytes w64 (take 8 self.now) }
        ensures view { IsView self.now }
    {
        let b = &self.bytes;
        u64::from_le_bytes([b[0], b[1], b[2], b[3], b[4], b[5], b[6], b[7]])
    }

    // Returns the last eight bytes as a little-endian number.
    #[inline]
    fn tail(&self) -> u64
        ensures value { result ≡ from_le_bytes w64 (drop 8 self.now) }
        ensures view { IsView self.now }
    {
        let b = &self.bytes;
        u64::from_le_bytes([b[8], b[9], b[10], b[11], b[12], b[13], b[14], b[15]])
    }
}

// Returns whether all bytes are zero.
fn is_zero(bytes: &[u8]) -> bool
    ensures { IsTrue result ↔ AllZero bytes.now }
{
    bytes.iter().all(|b| *b == 0)
}
