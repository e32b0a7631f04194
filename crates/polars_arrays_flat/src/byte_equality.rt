//! Equality of byte strings.

ghost use Rattle.std.specs.Prelude.{◌≡◌, ◌+◌, ◌*◌, ◌≤◌, ◌↔◌, IsTrue, length, take};
ghost use Rattle.std.specs.Int.{w32, w64, from_le_bytes, to_le_bytes};
ghost use Rattle.std.specs.Str.{bytes_eq};
ghost use Rattle.polars_arrays_flat.specs.Validity.{window};

/// Returns whether two byte strings are equal. If the shorter one has 4 to 16 bytes, its first and
/// its last four or eight bytes are compared as numbers, even if the lengths differ: a branch on
/// equal lengths would often be mispredicted.
#[inline(always)]
pub fn bytes_equal(left: &[u8], right: &[u8]) -> bool
    ensures { result ≡ bytes_eq left.now right.now }
{
    let least = left.len().min(right.len());
    if least < 4 {
        left == right
    } else if least < 8 {
        (left.len() == right.len()) & same_fours(left, right, least)
    } else if least <= 16 {
        (left.len() == right.len()) & same_eights(left, right, least)
    } else {
        left == right
    }
}

// Returns whether the first `n` bytes of `left` and `right` are equal. `n` is 4 to 8. Compares the
// first four and the last four of these bytes as numbers; the two may overlap.
#[inline(always)]
fn same_fours(left: &[u8], right: &[u8], n: usize) -> bool
    requires some { 4 ≤ n }
    requires few { n ≤ 8 }
    requires left_in { n ≤ length left.now }
    requires right_in { n ≤ length right.now }
    ensures { IsTrue result ↔ (take n left.now ≡ take n right.now) }
{
    let same_start = four_at(left, 0) == four_at(right, 0);
    let same_end = four_at(left, n - 4) == four_at(right, n - 4);
    same_start & same_end
}

// Returns whether the first `n` bytes of `left` and `right` are equal. `n` is 8 to 16. Compares the
// first eight and the last eight of these bytes as numbers; the two may overlap.
#[inline(always)]
fn same_eights(left: &[u8], right: &[u8], n: usize) -> bool
    requires some { 8 ≤ n }
    requires few { n ≤ 16 }
    requires left_in { n ≤ length left.now }
    requires right_in { n ≤ length right.now }
    ensures { IsTrue result ↔ (take n left.now ≡ take n right.now) }
{
    let same_start = eight_at(left, 0) == eight_at(right, 0);
    let same_end = eight_at(left, n - 8) == eight_at(right, n - 8);
    same_start & same_end
}

// Returns the four bytes from index `at` on as a little-endian number.
#[inline(always)]
fn four_at(bytes: &[u8], at: usize) -> u32
    requires { at + 4 ≤ length bytes.now }
    ensures number { result ≡ from_le_bytes w32 (window at 4 bytes.now) }
    ensures bytes { to_le_bytes w32 result ≡ window at 4 bytes.now }
{
    u32::from_le_bytes([bytes[at], bytes[at + 1], bytes[at + 2], bytes[at + 3]])
}

// Returns the eight bytes from index `at` on as a little-endian number.
#[inline(always)]
fn eight_at(bytes: &[u8], at: usize) -> u64
    requires { at + 8 ≤ length bytes.now }
    ensures number { result ≡ from_le_bytes w64 (window at 8 bytes.now) }
    ensures bytes { to_le_bytes w64 result ≡ window at 8 bytes.now }
{
    u64::from_le_bytes([
        bytes[at],
        bytes[at + 1],
        bytes[at + 2],
        bytes[at + 3],
        bytes[at + 4],
        bytes[at + 5],
        bytes[at + 6],
        bytes[at + 7],
    ])
}
