//! A range of numbers (`Span`). Each number has a slot, which is set if the number was seen, and
//! null has the last slot.

ghost use Rattle.std.specs.Prelude.{◌≡◌, ◌<◌, ◌^◌, ◌+ℤ◌, ◌-ℤ◌, ◌≤ℤ◌, ◌<ℤ◌, ◌↔◌, pos, unsigned_abs};
ghost use Rattle.std.specs.Prelude.{IsTrue};
ghost use Rattle.polars_arrays_flat.specs.Row.{Int};
ghost use Rattle.polars_arrays_flat.specs.StoredRows.{kept};
ghost use Rattle.polars_compute_slots.specs.Slots.{AreNumbers, HasSlot, place, slot_of};
ghost use Rattle.polars_compute_slots.specs.State.{RangeFits, numbers_from};

use crate::number::UniqueNumber;
use polars_arrays_numbers::comparison::{Comparison, Equal};
use polars_arrays_numbers::native_type::least_value;

/// The range of `count` numbers from `least` on. The slot of a number is `number - least`, and the
/// slot of null is `count`. For example, the range of 10, 11 and 12 has the slots 0, 1 and 2 for
/// these numbers, and slot 3 for null.
#[derive(Clone, Copy, Drop)]
pub struct Span<T: UniqueNumber> {
    pub least: T,
    pub count: usize,
}

// Returns `number - least`, which must lie between 0 and `usize::MAX`.
#[inline(always)]
fn distance<T: UniqueNumber>(least: T, number: T) -> usize
    requires order { T.value least ≤ℤ T.value number }
    requires small { T.value number <ℤ (T.value least +ℤ pos (2 ^ 64)) }
    ensures distance { result ≡ place (T.value least) (T.value number) }
    ensures least { T.low ≤ℤ T.value least }
    ensures greatest { T.value number ≤ℤ T.high }
{
    (number.whole() - least.whole()) as usize
}

/// Returns whether a range from `least` to `greatest` can be created: whether `least` is at most
/// `greatest`, and the number of slots, `greatest - least + 2`, is at most `usize::MAX`.
pub fn span_fits<T: UniqueNumber>(least: T, greatest: T) -> bool
    ensures { IsTrue result ↔ RangeFits (T.value least) (T.value greatest) }
{
    match usize::try_from(greatest.whole() - least.whole()) {
        Ok(distance) => distance < usize::MAX - 1,
        Err(_) => false,
    }
}

impl<T: UniqueNumber> Span<T> {
    /// Creates the range of the numbers from `least` to `greatest`, both included.
    pub fn between(least: T, greatest: T) -> Span<T>
        requires { RangeFits (T.value least) (T.value greatest) }
        ensures least { result.least ≡ least }
        ensures count { result.count ≡ unsigned_abs (T.value greatest -ℤ T.value least +ℤ pos 1) }
        ensures numbers { AreNumbers T.low T.high (T.value least) result.count }
    {
        Span {
            least,
            count: distance(least, greatest) + 1,
        }
    }

    /// Creates a range without numbers. Its only slot is that of null.
    pub fn empty() -> Span<T>
        ensures none { result.count ≡ 0 }
        ensures numbers { AreNumbers T.low T.high (T.value result.least) 0 }
    {
        let least = least_value::<T>();
        // Has no effect at run time. Shows the prover that the number is within its type's bounds.
        let _whole = least.whole();
        Span { least, count: 0 }
    }

    /// Returns the slot of a number of the range: `number - least`.
    #[inline(always)]
    pub fn slot(&self, number: T) -> usize
        requires { HasSlot (T.value self.now.least) self.now.count (Int (T.value number)) }
        ensures { result ≡ slot_of (T.value self.now.least) self.now.count (Int (T.value number)) }
    {
        // Has no effect at run time. Shows the prover that the count is a `usize`.
        let _count = self.count;
        distance(self.least, number)
    }

    /// Returns the number whose slot is `slot`: `least + slot`. `slot` must be less than `count`.
    #[inline(always)]
    pub fn number(&self, slot: usize) -> T
        requires numbers { AreNumbers T.low T.high (T.value self.now.least) self.now.count }
        requires within { slot < self.now.count }
        ensures { T.value result ≡ T.value self.now.least +ℤ pos slot }
    {
        T::from_whole(self.least.whole() + slot as i128)
    }

    /// Returns whether a number is in the range.
    #[inline(always)]
    pub fn holds(&self, number: T) -> bool
        ensures { IsTrue result
            ↔ HasSlot (T.value self.now.least) self.now.count (Int (T.value number)) }
    {
        let count = self.count;
        match usize::try_from(number.whole() - self.least.whole()) {
            Ok(slot) => slot < count,
            Err(_) => false,
        }
    }

    /// Returns whether two ranges have the same numbers. All ranges without numbers are the same.
    pub fn same(&self, other: &Span<T>) -> bool
        ensures { IsTrue result
            ↔ (numbers_from (T.value self.now.least) self.now.count
            ≡ numbers_from (T.value other.now.least) other.now.count) }
    {
        self.count == other.count && (self.count == 0 || Equal.compare(self.least, other.least))
    }

    /// Returns the slot of a row: that of `number` if `present` is true, and that of null
    /// otherwise. Compiles without a branch.
    #[inline(always)]
    pub fn row_slot(&self, present: bool, number: T) -> usize
        requires { HasSlot (T.value self.now.least) self.now.count
            (kept present (Int (T.value number))) }
        ensures { result
            ≡ slot_of (T.value self.now.least) self.now.count
            (kept present (Int (T.value number))) }
    {
        if present {
            self.slot(number)
        } else {
            self.count
        }
    }
}
