//! Bits that are written into the caller's memory.

ghost use Rattle.std.specs.Prelude.{◌≡◌, ◌≤◌, ◌*◌, length, slice_index_or, false, IfErr, OnOk};
ghost use Rattle.std.specs.Prelude.{OnErr};
ghost use Rattle.polars_arrays_words.specs.Bits.{IsWord};
ghost use Rattle.arrow_parts.specs.Written.{AreWritten};
ghost use Rattle.arrow_parts.specs.declared.refused.Refused.TheVariants.{Room};

use crate::refused::Refused;
use polars_arrays_bits::bit_mask::BitMask;
use polars_arrays_bits::bitmap::Bitmap;

/// Returns bits `64 * k` to `64 * k + 63` of `mask` as a word, bit `64 * k` lowest. Bits past the
/// end of the mask are 0.
fn word_at(mask: &BitMask<'_>, k: usize) -> u64
    ensures { IsWord (λ p. slice_index_or mask.now p false) k result }
{
    let count = mask.len();
    if k < count / 64 {
        mask.word(k)
    } else if k == count / 64 && !count.is_multiple_of(64) {
        mask.few_bits(64 * k, count % 64)
    } else {
        0
    }
}

/// Writes `bits` into the words `out`. The first bit becomes the lowest bit of the first word. Sets
/// all bits of `out` after the last of `bits` to 0.
///
/// Fails with `Room` if `out` has fewer bits than `bits`. `out` is then unchanged.
pub fn write_bits(bits: &Bitmap, out: &mut [u64]) -> Result<(), Refused>
    ensures written { OnOk result (AreWritten bits.now out.new) }
    ensures refused { IfErr result (λ e. e ≡ Room) }
    ensures room { OnErr result (¬ (length bits.now ≤ 64 * length out.old)) }
    ensures kept { OnErr result (out.new ≡ out.old) }
{
    let mask = BitMask::from_bitmap(bits);
    if out.len() < mask.len().div_ceil(64) {
        return Err(Refused::Room);
    }
    for k in 0..out.len() {
        out[k] = word_at(&mask, k);
    }
    Ok(())
}
