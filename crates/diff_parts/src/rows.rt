//! Finds out whether a row is in a part.

ghost use Rattle.std.specs.List.{fold};
ghost use Rattle.std.specs.Prelude.{◌≡◌, [], get_or};
ghost use Rattle.diff_keys.specs.Hashes.{hash_step, key_hash};
ghost use Rattle.diff_parts.specs.Parts.{in_part};
ghost use Rattle.diff_tables.specs.Keys.{escaped, marked, row_key};

use crate::part::Part;
use diff_tables::string_list::StringList;

/// The start value of the 64-bit FNV-1a hash, which is the hash of an empty key.
const EMPTY: u64 = 0xcbf2_9ce4_8422_2325;

/// The prime by which the FNV-1a hash is multiplied after each byte.
const PRIME: u64 = 0x100_0000_01b3;

/// Returns the hash of some bytes followed by `byte`. `hash` is the hash of the bytes before
/// `byte`.
#[inline(always)]
fn after_byte(hash: u64, byte: u8) -> u64
    ensures { result ≡ hash_step hash byte }
{
    (hash ^ u64::from(byte)).wrapping_mul(PRIME)
}

/// Returns the hash of some bytes followed by one byte of a cell. `hash` is the hash of the bytes
/// before the cell byte. A zero byte is hashed as the two bytes 0 and 1.
#[inline(always)]
fn after_marked(hash: u64, byte: u8) -> u64
    ensures { result ≡ fold hash_step hash (marked byte) }
{
    let after = after_byte(hash, byte);
    if byte == 0 {
        return after_byte(after, 1);
    }
    after
}

/// Returns the hash of some bytes followed by `cell` and its end mark, which is two zero bytes.
/// `hash` is the hash of the bytes before the cell. Each zero byte in the cell is hashed as the two
/// bytes 0 and 1.
#[inline(always)]
fn after_cell(hash: u64, cell: &[u8]) -> u64
    ensures { result ≡ fold hash_step hash (escaped cell.now) }
{
    let mut after = hash;
    for byte in cell {
        after = after_marked(after, *byte);
    }
    after_byte(after_byte(after, 0), 0)
}

/// Returns the cell of a row at index `column`, or an empty cell if the row has fewer cells.
#[inline(always)]
fn cell_at<S: StringList>(cells: &S, column: usize) -> &[u8]
    ensures { result.now ≡ get_or (S.strings cells.now) column [] }
{
    if column < cells.count() {
        return cells.string(column);
    }
    &[]
}

/// Returns the hash of the key of the row with the cells `cells`. `keys` are the indices of the key
/// cells in `cells`. The hash is that of the key as `keys_of` of `diff_tables` encodes it, but the
/// key is not stored.
fn row_hash<S: StringList>(cells: &S, keys: &[usize]) -> u64
    ensures { result ≡ key_hash (row_key keys.now (S.strings cells.now)) }
{
    let mut hash = EMPTY;
    for column in keys {
        hash = after_cell(hash, cell_at(cells, *column));
    }
    hash
}

impl Part {
    /// Returns whether the row with the cells `cells` is in the part. `keys` are the indices of the
    /// key cells in `cells`. A key cell that the row does not have counts as empty. Other cells do
    /// not matter.
    pub fn has_row<S: StringList>(self, cells: &S, keys: &[usize]) -> bool
        ensures { result ≡ in_part self (row_key keys.now (S.strings cells.now)) }
    {
        self.has_hash(row_hash(cells, keys))
    }
}
