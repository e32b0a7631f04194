//! The lexicographic order of byte strings, compared several bytes at a time.

ghost use Rattle.std.specs.Prelude.{◌≡◌, ◌≤◌, ◌<◌, ◌+◌, ◌-◌, ◌*◌, ℕ, List, length, take, drop, min};
ghost use Rattle.std.specs.Cmp.Lexicographic.{slice_cmp};
ghost use Rattle.std.specs.Int.{w32, w64, from_be_bytes};
ghost use Rattle.std.specs.Ordering.{nat_cmp, is_lt, ordering_then};
ghost use Rattle.polars_arrays_flat.specs.ByteOrder.{AreBytes, bytes_lt, few_number};

/// Returns whether `left` is less than `right`. The first byte that differs decides. If there is
/// none, the shorter string is less.
#[inline(always)]
pub fn bytes_less(left: &[u8], right: &[u8]) -> bool
    ensures { result ≡ bytes_lt left.now right.now }
{
    let common = left.len().min(right.len());
    if common > 8 {
        return long_less(left, right, common);
    }
    if common >= 4 {
        let (p, q) = (ends(left, common), ends(right, common));
        return pair_less(p, q, left.len(), right.len());
    }
    let (p, q) = (few(left, common), few(right, common));
    pair_less(u64::from(p), u64::from(q), left.len(), right.len())
}

/// Returns whether `(p, n)` is less than `(q, m)`: `p` and `q` decide, or `n` and `m` if `p` equals
/// `q`.
#[inline(always)]
pub fn pair_less(p: u64, q: u64, n: usize, m: usize) -> bool
    ensures { result ≡ is_lt (ordering_then (nat_cmp p q) (nat_cmp n m)) }
{
    (p < q) | ((p == q) & (n < m))
}

// Returns whether `left` is less than `right`, in the order of `bytes_less`. `common` is the length
// of the shorter string, which has more than eight bytes.
#[inline]
fn long_less(left: &[u8], right: &[u8], common: usize) -> bool
    requires common { common ≡ min (length left.now) (length right.now) }
    requires long { 8 < common }
    ensures { result ≡ bytes_lt left.now right.now }
{
    for k in 0..(common - 1) / 8 {
        let (p, q) = (eight_at(left, 8 * k), eight_at(right, 8 * k));
        if p != q {
            return p < q;
        }
    }
    let last = common - 8;
    let (p, q) = (eight_at(left, last), eight_at(right, last));
    pair_less(p, q, left.len(), right.len())
}

// Returns the first four and the last four of the first `n` bytes, together as a big-endian number
// of eight bytes.
#[inline(always)]
fn ends(bytes: &[u8], n: usize) -> u64
    requires some { 4 ≤ n }
    requires within { n ≤ length bytes.now }
    ensures value { result ≡ from_be_bytes w32 (take 4 bytes.now) * 4294967296 + from_be_bytes w32
        (take 4 (drop (n - 4) bytes.now)) }
    ensures small { from_be_bytes w32 (take 4 (drop (n - 4) bytes.now)) < 4294967296 }
    ensures bytes { AreBytes bytes.now }
{
    u64::from(four_at(bytes, 0)) * 4294967296 + u64::from(four_at(bytes, n - 4))
}

// Returns the first, the middle and the last of the first `n` bytes as a big-endian number. `n` is
// at most 3. Returns 0 if `n` is 0.
#[inline(always)]
fn few(bytes: &[u8], n: usize) -> u32
    requires few { n < 4 }
    requires within { n ≤ length bytes.now }
    ensures value { result ≡ few_number n bytes.now }
    ensures bytes { AreBytes bytes.now }
{
    if n == 0 {
        return 0;
    }
    u32::from_be_bytes([0, bytes[0], bytes[n / 2], bytes[n - 1]])
}

// Returns the four bytes from index `at` on as a big-endian number.
#[inline(always)]
fn four_at(bytes: &[u8], at: usize) -> u32
    requires { at + 4 ≤ length bytes.now }
    ensures value { result ≡ from_be_bytes w32 (take 4 (drop at bytes.now)) }
    ensures bytes { AreBytes bytes.now }
{
    let b = &bytes[at..at + 4];
    u32::from_be_bytes([b[0], b[1], b[2], b[3]])
}

// Returns the eight bytes from index `at` on as a big-endian number.
#[inline(always)]
fn eight_at(bytes: &[u8], at: usize) -> u64
    requires { at + 8 ≤ length bytes.now }
    ensures value { result ≡ from_be_bytes w64 (take 8 (drop at bytes.now)) }
    ensures bytes { AreBytes bytes.now }
{
    let b = &bytes[at..at + 8];
    u64::from_be_bytes([b[0], b[1], b[2], b[3], b[4], b[5], b[6], b[7]])
}
