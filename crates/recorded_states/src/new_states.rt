//! Sources of new states. A source has a range of values, and creates states of that range.

ghost use Rattle.std.specs.Prelude.{IfOk};
ghost use Rattle.polars_arrays_nested.specs.GoodParts.{IsGood};
ghost use Rattle.recorded_text.specs.Cases.{HasGoodArrays};

use crate::numbers::RecordedNumber;
use crate::state_kinds::RecordedState;
use polars_arrays_nested::any_array::AnyArray;
use polars_compute_unique::boolean::BooleanUniqueKernelState;
use polars_compute_unique::dictionary::{DictionaryRangedUniqueState, keys_fit};
use polars_compute_unique::primitive::{PrimitiveRangedUniqueState, range_fits};
use recorded_text::fault::Fault;
use recorded_text::store::Store;
use recorded_text::words::Words;
use std::alloc::Global;
use std::marker::Model;

/// A source of new states, which all have the same range. Types of sources are `NumberRange`,
/// `Truths` and `Entries`.
pub trait NewStates: Sized + Drop {
    /// The type of the states.
    type State: RecordedState;

    /// Reads a range from the next words. `store` has the arrays that these words may name. Does
    /// not test whether a state of the range can be created.
    fn read(alloc: Global, store: &Store, words: &mut Words) -> Result<Self, Fault>
        requires { HasGoodArrays store.now };

    /// Returns whether a state of the range can be created.
    fn fit(&self) -> bool;

    /// Creates a state of the range that has seen no row. The error is `Case` if no state of the
    /// range can be created, or else `Memory`.
    fn new_state(&self, alloc: Global) -> Result<Self::State, Fault>;
}

/// Reads a range from `words`, and creates a state of it that has seen no row. The error is that of
/// `N::read`, or else that of `new_state`.
pub fn read_new<N: NewStates>(
    alloc: Global,
    store: &Store,
    words: &mut Words,
) -> Result<N::State, Fault>
    requires { HasGoodArrays store.now }
{
    N::read(alloc, store, words)?.new_state(alloc)
}

/// A range of numbers. `read` takes two words, the first and the last number.
#[derive(Drop)]
pub enum NumberRange<T: RecordedNumber> {
    /// The numbers from the first field to the second. There are none if the first is greater; then
    /// no state can be created.
    Between(T, T),
    /// A range without numbers. Its states accept only arrays in which all rows are null.
    Empty,
}

impl<T: RecordedNumber> NewStates for NumberRange<T> {
    type State = PrimitiveRangedUniqueState<T>;

    fn read(_alloc: Global, _store: &Store, words: &mut Words) -> Result<NumberRange<T>, Fault> {
        let least = words.read_number()?;
        let greatest = words.read_number()?;
        Ok(NumberRange::Between(least, greatest))
    }

    fn fit(&self) -> bool {
        match self {
            NumberRange::Between(least, greatest) => range_fits(*least, *greatest),
            NumberRange::Empty => true,
        }
    }

    fn new_state(&self, alloc: Global) -> Result<PrimitiveRangedUniqueState<T>, Fault> {
        match self {
            NumberRange::Between(least, greatest) => state_between(alloc, *least, *greatest),
            NumberRange::Empty => Ok(PrimitiveRangedUniqueState::new_empty()),
        }
    }
}

// Creates a state of the numbers from `least` to `greatest`. The error is `Case` if no such state
// can be created, or else `Memory`.
fn state_between<T: RecordedNumber>(
    alloc: Global,
    least: T,
    greatest: T,
) -> Result<PrimitiveRangedUniqueState<T>, Fault> {
    if !range_fits(least, greatest) {
        return Err(Fault::Case);
    }
    PrimitiveRangedUniqueState::new(alloc, least, greatest).map_err(Fault::from)
}

/// The range of both truth values. `read` takes no words.
#[derive(Drop)]
pub struct Truths;

impl NewStates for Truths {
    type State = BooleanUniqueKernelState;

    fn read(_alloc: Global, _store: &Store, _words: &mut Words) -> Result<Truths, Fault> {
        Ok(Truths)
    }

    fn fit(&self) -> bool {
        true
    }

    fn new_state(&self, _alloc: Global) -> Result<BooleanUniqueKernelState, Fault> {
        Ok(BooleanUniqueKernelState::new())
    }
}

/// The range of the keys of a dictionary. `read` takes one word, the name of the entries.
#[derive(Drop)]
pub struct Entries {
    entries: AnyArray,
}

impl Model for Entries {
    ghost use Rattle.polars_arrays_nested.specs.GoodParts.{IsGood};
    ghost use Rattle.polars_arrays_nested.specs.contracts.any_array.AnyArray as any;
    ghost use Rattle.polars_arrays_nested.specs.declared.any_array.AnyArray.{AnyArray};

    ghost Value = { AnyArray };

    ghost coded = { any.the_row.coded };

    ghost view = { λ s. s.entries };

    ghost invariant = { λ s. IsGood s.entries };
}

impl NewStates for Entries {
    type State = DictionaryRangedUniqueState;

    fn read(alloc: Global, store: &Store, words: &mut Words) -> Result<Entries, Fault> {
        let entries = copy_array(alloc, store.read(words)?)?;
        Ok(Entries { entries })
    }

    fn fit(&self) -> bool {
        keys_fit(&self.entries)
    }

    fn new_state(&self, alloc: Global) -> Result<DictionaryRangedUniqueState, Fault> {
        new_state_over(alloc, &self.entries)
    }
}

// Clones `array`. The error is `Memory`.
fn copy_array(alloc: Global, array: &AnyArray) -> Result<AnyArray, Fault>
    requires { IsGood array.now }
    ensures { IfOk result (λ copy. IsGood copy) }
{
    let copy = array.clone_array(alloc)?;
    Ok(copy)
}

/// Creates a state of the keys of a dictionary, with a clone of `entries` as its entries. The error
/// is `Case` if keys of type `u32` cannot refer to all entries, or else `Memory`.
pub fn new_state_over(
    alloc: Global,
    entries: &AnyArray,
) -> Result<DictionaryRangedUniqueState, Fault>
    requires { IsGood entries.now }
{
    state_over(alloc, copy_array(alloc, entries)?)
}

// Creates a state of the keys of a dictionary with the entries `entries`. The error is `Case` if
// keys of type `u32` cannot refer to all entries, or else `Memory`.
fn state_over(alloc: Global, entries: AnyArray) -> Result<DictionaryRangedUniqueState, Fault>
    requires { IsGood entries }
{
    if !keys_fit(&entries) {
        drop(entries);
        return Err(Fault::Case);
    }
    DictionaryRangedUniqueState::new(alloc, entries).map_err(Fault::from)
}
