//! Calls of `join_masks`, which combines the bits of a raw comparison with the masks of both sides.
//! RELATION is `equal` or `unequal`, the comparison that gave the raw bits BITS. A VALIDITY is `-`
//! if there is none, or bits.
//!
//! - `join_nulls RELATION BITS VALIDITY VALIDITY`: the resulting bits, with masks that `Mask::lent`
//!   makes of the validities
//! - `join_masks RELATION BITS VALIDITY VALIDITY`: the resulting bits, with the bits of the
//!   validities in place of masks

ghost use Rattle.std.specs.Prelude.{◌≡◌};

use polars_arrays_bits::bit_mask::BitMask;
use polars_arrays_bits::bitmap::Bitmap;
use polars_arrays_flat::mask::Mask;
use polars_arrays_flat::validity::has_bits;
use polars_compare_leaves::joining::{Relation, join_masks};
use recorded_text::bits_text::write_made;
use recorded_text::fault::Fault;
use recorded_text::parts::{Kept, read_bits, read_validity};
use recorded_text::words::Words;
use std::alloc::Global;

/// A call that joins raw bits with masks: `join_nulls` or `join_masks`.
#[derive(Clone, Copy)]
pub enum Join {
    Nulls,
    Masks,
}

// Reads from the next word which of the two comparisons gave the raw bits: `equal` or `unequal`.
// The error is `Word` for any other word.
fn read_relation(words: &mut Words) -> Result<Relation, Fault> {
    match words.read()? {
        "equal" => Ok(Relation::Equal),
        "unequal" => Ok(Relation::Unequal),
        _ => Err(Fault::Word),
    }
}

/// Reads a relation, raw bits and two validities from the next words, and returns the text of the
/// bits that `join_masks` makes of them. `join` says how the masks are made. The error is `Case` if
/// a validity has another length than the bits.
pub fn ask(alloc: Global, join: Join, words: &mut Words) -> Result<String, Fault> {
    let relation = read_relation(words)?;
    let raw = read_bits(alloc, words.read()?)?;
    let left = read_validity(alloc, Kept::Owned, words)?;
    join_left(alloc, join, relation, raw, &left, words)
}

// Reads the right validity from the next words, and joins `raw` with it and with `left`, the left
// one. Returns the text of the resulting bits. The error is `Case` if a validity has another length
// than `raw`.
fn join_left(
    alloc: Global,
    join: Join,
    relation: Relation,
    raw: Bitmap,
    left: &Option<Bitmap>,
    words: &mut Words,
) -> Result<String, Fault> {
    let right = read_validity(alloc, Kept::Owned, words)?;
    join_read(alloc, join, relation, raw, left, &right)
}

// Joins raw bits with two validities by `join_masks`, and returns the text of the resulting bits.
// `join` says whether the masks are made by `Mask::lent` or directly of the bitmaps. The error is
// `Case` if a validity has another length than the bits.
fn join_read(
    alloc: Global,
    join: Join,
    relation: Relation,
    raw: Bitmap,
    left: &Option<Bitmap>,
    right: &Option<Bitmap>,
) -> Result<String, Fault> {
    if !has_bits(raw.len(), left) || !has_bits(raw.len(), right) {
        return Err(Fault::Case);
    }
    let joined = match join {
        Join::Nulls => {
            let (left, right) = (Mask::lent(left.as_ref()), Mask::lent(right.as_ref()));
            join_masks(alloc, relation, raw, left.bits(), right.bits())
        }
        Join::Masks => join_masks(alloc, relation, raw, lent(left), lent(right)),
    };
    write_made(alloc, joined)
}

// Returns the bits of `validity`, borrowed, or `None` if there is no validity.
fn lent(validity: &Option<Bitmap>) -> Option<BitMask<'_>>
    ensures { result ≡ validity.now }
{
    match validity {
        Some(bits) => Some(BitMask::from_bitmap(bits)),
        None => None,
    }
}
