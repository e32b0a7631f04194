//! Conversion of lent offsets of strings and lists.
#![tactic(auto, using(crate::proofs::EndLemmas::ends))]

ghost use Rattle.std.specs.Prelude.{◌≡◌, ◌≢◌, IfErr, IfNone, IfOk, IfSome, None};
ghost use Rattle.std.specs.List.{All};
ghost use Rattle.polars_arrays_bytes.specs.OffsetStrings.{places};
ghost use Rattle.polars_arrays_numbers.specs.Naturals.{natural_of};
ghost use Rattle.arrow_parts.specs.Lent.{place_from, places_from};
ghost use Rattle.arrow_parts.specs.Refusals.{IsHonest};

use arrow_parts::refused::Refused;
use polars_arrays_bits::buffer::Buffer;
use polars_arrays_numbers::offset::Offset;
use std::alloc::Global;

/// A type of lent offsets: `i32` or `i64`.
pub trait LentOffset: Offset {
    /// Converts the offset to `i64`.
    fn wide(self) -> i64
        ensures { result ≡ Self.value self };
}

impl LentOffset for i32 {
    #[inline(always)]
    fn wide(self) -> i64 {
        i64::from(self)
    }
}

impl LentOffset for i64 {
    #[inline(always)]
    fn wide(self) -> i64 {
        self
    }
}

/// Returns `offset - base`, or `None` if the offset is negative or less than `base`.
#[inline(always)]
fn end_from(offset: i64, base: usize) -> Option<i64>
    ensures some { IfSome result (λ end. natural_of end ≡ place_from base (natural_of offset)) }
    ensures none { IfNone result (place_from base (natural_of offset) ≡ None) }
{
    let place = offset.to_place()?;
    if place < base {
        return None;
    }
    match i64::try_from(place - base) {
        Ok(end) => Some(end),
        Err(_) => None,
    }
}

/// Subtracts `base` from each offset, and returns the results as `i64`. Fails with `Parts` if an
/// offset is negative or less than `base`, and with `Memory` if an allocation fails.
pub fn ends_from<O: LentOffset>(
    alloc: Global,
    base: usize,
    offsets: &[O],
) -> Result<Buffer<i64>, Refused>
    ensures ends { IfOk result
        (λ ends. places (λ x. x) ends.items ≡ places_from base O.value offsets.now) }
    ensures refused { IfErr result
        (IsHonest (All (λ place. place ≢ None) (places_from base O.value offsets.now))) }
{
    let mut ends: Vec<i64> = Vec::with_capacity(alloc, offsets.len())?;
    for i in 0..offsets.len() {
        match end_from(offsets[i].wide(), base) {
            Some(end) => ends.push_reserved(end),
            None => return Err(Refused::Parts),
        }
    }
    Ok(Buffer::from_vec(ends))
}
