//! Comparisons of byte strings that are the beginnings of slices. Strings of at most 16 bytes are
//! compared as one block of 16 bytes, if both slices have at least 16 bytes.

ghost use Rattle.std.specs.Prelude.{◌≡◌, ◌≢◌, ◌≤◌, ◌<◌, ◌-◌, ◌^◌, ◌↔◌, ℕ, IsTrue, length};
ghost use Rattle.std.specs.Prelude.{take, get_or};
ghost use Rattle.std.specs.Int.{bit_at};
ghost use Rattle.std.specs.Str.{bytes_eq};
ghost use Rattle.polars_arrays_flat.specs.ByteOrder.{bytes_lt};

use crate::byte_equality::bytes_equal;
use crate::byte_order::bytes_less;
use std::simd::prelude::*;

/// The number of bytes of a block.
pub const BLOCK_BYTES: usize = 16;

/// Returns whether the first `n` bytes of `left` equal the first `m` bytes of `right`. Compares one
/// block if `n` and `m` are at most 16 and both slices have at least 16 bytes.
#[inline(always)]
pub fn beginnings_equal(left: &[u8], n: usize, right: &[u8], m: usize) -> bool
    requires left_in { n ≤ length left.now }
    requires right_in { m ≤ length right.now }
    ensures { result ≡ bytes_eq (take n left.now) (take m right.now) }
{
    if in_blocks(left, n, right, m) {
        return (n == m) & (n <= same_places(left, right));
    }
    if n != m {
        return false;
    }
    bytes_equal(&left[..n], &right[..m])
}

/// Returns whether the first `n` bytes of `left` are less than the first `m` bytes of `right`, in
/// the order of `bytes_less`. Compares one block if `n` and `m` are at most 16 and both slices have
/// at least 16 bytes.
#[inline(always)]
pub fn beginnings_less(left: &[u8], n: usize, right: &[u8], m: usize) -> bool
    requires left_in { n ≤ length left.now }
    requires right_in { m ≤ length right.now }
    ensures { result ≡ bytes_lt (take n left.now) (take m right.now) }
{
    if in_blocks(left, n, right, m) {
        let k = same_places(left, right);
        let common = n.min(m);
        // If the blocks are equal, `k` is not an index of a block. The last index is then read in
        // its place; the bytes there have no effect on the result.
        let place = k.min(BLOCK_BYTES - 1);
        return ((k < common) & (left[place] < right[place])) | ((k >= common) & (n < m));
    }
    bytes_less(&left[..n], &right[..m])
}

/// Returns a block that begins with `bytes`. A string that is compared with many others is copied
/// to a block first, so that `beginnings_equal` and `beginnings_less` can compare it as one block.
pub fn block_of(bytes: &[u8]) -> [u8; BLOCK_BYTES]
    requires { length bytes.now ≤ 16 }
    ensures { take (length bytes.now) result ≡ bytes.now }
{
    let mut block = [0; BLOCK_BYTES];
    block[..bytes.len()].copy_from_slice(bytes);
    block
}

/// Returns the number whose lowest `n` bits are 1. All other bits are 0.
pub fn lowest_ones(n: usize) -> u64
    requires { n ≤ 16 }
    ensures { result ≡ 2 ^ n - 1 }
{
    (1 << n) - 1
}

/// Returns whether the first `n` bytes of `left` equal the first `m` bytes of `block`. The lowest
/// `m` bits of `inside` are 1 (`lowest_ones`). Compares one block if `left` has at least 16 bytes.
/// Loops that compare one string with many others make `block` and `inside` once.
#[inline(always)]
pub fn beginning_equals_block(left: &[u8], n: usize, block: &[u8], m: usize, inside: u64) -> bool
    requires left_in { n ≤ length left.now }
    requires block_in { 16 ≤ length block.now }
    requires few { m ≤ 16 }
    requires inside { inside ≡ 2 ^ m - 1 }
    ensures { result ≡ bytes_eq (take n left.now) (take m block.now) }
{
    if left.len() >= BLOCK_BYTES {
        return (n == m) & (other_places(left, block) & inside == 0);
    }
    if n != m {
        return false;
    }
    bytes_equal(&left[..n], &block[..m])
}

// Returns whether `n` and `m` are at most 16 and both slices have at least 16 bytes.
#[inline(always)]
fn in_blocks(left: &[u8], n: usize, right: &[u8], m: usize) -> bool
    ensures { IsTrue result → (n ≤ 16) × (m ≤ 16) × (16 ≤ length left.now)
        × (16 ≤ length right.now) }
{
    (n.max(m) <= BLOCK_BYTES) & (left.len().min(right.len()) >= BLOCK_BYTES)
}

// Returns a word in which bit `i` is 1 if the bytes with the index `i` in two blocks differ. The
// bits above bit 15 are 0.
#[inline(always)]
fn other_places(left: &[u8], right: &[u8]) -> u64
    requires left_in { 16 ≤ length left.now }
    requires right_in { 16 ≤ length right.now }
    ensures { (i : ℕ) → i < 16
        → (bit_at result i ≡ 0) ↔ (get_or left.now i 0 ≡ get_or right.now i 0) }
{
    u8x16::from_slice(left)
        .simd_ne(u8x16::from_slice(right))
        .to_bitmask()
}

// Returns the index of the first byte that differs between `left` and `right`. Returns 16 or more
// if the first 16 bytes are equal.
#[inline(always)]
fn same_places(left: &[u8], right: &[u8]) -> usize
    requires left_in { 16 ≤ length left.now }
    requires right_in { 16 ≤ length right.now }
    ensures same { (i : ℕ) → i < 16 → i < result → get_or left.now i 0 ≡ get_or right.now i 0 }
    ensures apart { result < 16 → get_or left.now result 0 ≢ get_or right.now result 0 }
{
    let differ = u8x16::from_slice(left)
        .simd_ne(u8x16::from_slice(right))
        .to_bitmask();
    differ.trailing_zeros() as usize
}
