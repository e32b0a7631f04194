//! The hash function for keys (FNV-1a, 64 bits).

ghost use Rattle.std.specs.Prelude.{◌≡◌};
ghost use Rattle.diff_keys.specs.Hashes.{key_hash};

/// The start value of the hash, which is the hash of an empty key.
const EMPTY: u64 = 0xcbf2_9ce4_8422_2325;

/// The prime by which the hash is multiplied after each byte.
const PRIME: u64 = 0x100_0000_01b3;

/// Returns the 64-bit FNV-1a hash of a key.
#[inline(always)]
pub fn key_hash(key: &[u8]) -> u64
    ensures { result ≡ key_hash key.now }
{
    let mut hash = EMPTY;
    for byte in key {
        hash = (hash ^ u64::from(*byte)).wrapping_mul(PRIME);
    }
    hash
}
