//! Traits for distinct values: `RangedUniqueKernel` for states that collect them from many arrays,
//! and `GenericUniqueKernel` and `SortedUniqueKernel` for single arrays.

ghost use Rattle.std.specs.Prelude.{◌≡◌, ◌↔◌, ◌&&◌, ◌++◌, ℤ, Bool, List, Option, IsTrue, IfOk};
ghost use Rattle.std.specs.Prelude.{MatchResult, All, length};
ghost use Rattle.polars_arrays_bits.specs.Errors.{IsMemory};
ghost use Rattle.polars_arrays_flat.specs.Row.{Row};
ghost use Rattle.polars_arrays_flat.specs.StoredRows.{rows_under};
ghost use Rattle.polars_arrays_nested.specs.declared.any_array.AnyArray.{AnyArray};
ghost use Rattle.polars_compute_slots.specs.State.{State, all_seen, appended, are_within, distinct};
ghost use Rattle.polars_compute_slots.specs.State.{distinct_values, finalised, merged, range_of};
ghost use Rattle.polars_compute_slots.specs.State.{set_of};
ghost use Rattle.polars_compute_unique.specs.Dictionaries.{HasEntries, IsFinalFault};
ghost use Rattle.polars_compute_unique.specs.Sorted.{AreAdjacent, AreDistinct, CountsDistinct};
ghost use Rattle.polars_compute_unique.specs.Sorted.{CountsPresent, rows_of_all};

use polars_arrays_bits::error::ComputeError;
use polars_arrays_flat::array::Array;
use std::alloc::Global;

/// A state that collects the distinct values of arrays. It has a range of values, and records which
/// of them were seen, and whether a null was seen.
///
/// Arrays whose values lie in the range are appended to the state. States of the same range can be
/// merged. The values of dictionary arrays are their keys, of type `u32`; in results a key to a
/// null entry counts as null.
pub trait RangedUniqueKernel {
    /// The type of the arrays that are appended to the state.
    type Array: Array;

    // The range, the set of its values that were seen, and whether a null was seen.
    ghost state: { Self → State };

    // The state in which keys to null entries count as null, if the values are keys of a
    // dictionary; otherwise the state itself.
    ghost read: { Self → State };

    // The dictionary of the keys, if the values are keys.
    ghost dictionary: { Self → Option AnyArray };

    // The rows that an array adds to a state: its own rows, or the keys of a dictionary array.
    ghost fed: { Self.Array → List Row };

    // True for arrays of a type that states accept.
    ghost is_taken: { Self.Array → Bool };

    // The dictionary of an array, if it has one.
    ghost array_dictionary: { Self.Array → Option AnyArray };

    // The row that a value of the range stands for.
    ghost value_row: { ℤ → Row };

    /// Returns whether all values of the range and a null were seen. In a state of dictionary keys,
    /// a key to a null entry counts as null, and not as a value of the range.
    fn has_seen_all(&self) -> bool
        ensures { result ≡ all_seen (read self.now) };

    /// Returns whether the array can be appended to the state: whether each present row lies in the
    /// range, and whether the keys of a dictionary array have type `u32`.
    fn accepts(&self, array: &Self::Array) -> bool
        ensures { result
            ≡ (is_taken array.now && are_within (range_of (state self.now)) (fed array.now)) };

    /// Returns whether two states have the same range.
    fn same_range(&self, other: &Self) -> bool
        ensures { IsTrue result ↔ (range_of (state self.now) ≡ range_of (state other.now)) };

    /// Adds the values of the present rows of an array to the values seen, and records a null if
    /// the array has one. The state must accept the array.
    fn append(&mut self, array: &Self::Array)
        requires taken { IsTrue (is_taken array.now) }
        requires within { IsTrue (are_within (range_of (state self.old)) (fed array.now)) }
        ensures state { state self.new ≡ appended (fed array.now) (state self.old) }
        ensures dictionary { dictionary self.new ≡ dictionary self.old };

    /// Adds the values that another state has seen to the values seen, and records a null if that
    /// state has seen one. Both states must have the same range. Each state keeps its own
    /// dictionary.
    fn append_state(&mut self, other: &Self)
        requires { range_of (state self.old) ≡ range_of (state other.now) }
        ensures state { state self.new ≡ merged (state self.old) (state other.now) }
        ensures dictionary { dictionary self.new ≡ dictionary self.old };

    /// Returns an array of the values seen, ascending. A null is the last row if a null was seen.
    /// For example, after the rows 3, null, 1, 3 were appended, returns 1, 3, null. The state of a
    /// dictionary returns a dictionary array with keys of type `u32`.
    ///
    /// If a key that was seen has no entry in the dictionary, the error is `KeyOutOfRange` with the
    /// least such key and the number of entries. Otherwise the error is `Memory`.
    fn finalize_unique(self, alloc: Global) -> Result<Self::Array, ComputeError>
        ensures rows { MatchResult result
            (λ array. fed array ≡ finalised value_row (read self))
            (IsFinalFault (dictionary self) (state self)) }
        ensures entries { IfOk result (λ array. HasEntries (dictionary self) (state self)) }
        ensures dictionary { IfOk result (λ array. array_dictionary array ≡ dictionary self) }
        ensures taken { IfOk result (λ array. IsTrue (is_taken array)) }
        ensures good { IfOk result (λ array. Self.Array.good array) };

    /// Returns the number of distinct values seen, plus 1 if a null was seen: the length of the
    /// array that `finalize_unique` returns. Has a result even if `finalize_unique` would fail.
    fn finalize_n_unique(&self) -> usize
        ensures { result ≡ length (finalised value_row (read self.now)) };

    /// Returns the number of distinct values seen, not counting null: the number of present rows
    /// that `finalize_unique` returns.
    fn finalize_n_unique_non_null(&self) -> usize
        ensures { result ≡ length (set_of (read self.now)) };
}

/// An array whose distinct rows can be counted and listed. The results are those of a
/// `RangedUniqueKernel` state to which only this array was appended.
pub trait GenericUniqueKernel: Sized {
    // The rows of the array.
    ghost rows: { Self → List Row };

    // The values that a present row can have (`range`), and the row of each value (`value_row`).
    ghost range: { List ℤ };

    ghost value_row: { ℤ → Row };

    /// Returns an array of the distinct rows, ascending. A null is the last row if the array has a
    /// null. The error is `Memory`.
    fn unique(&self, alloc: Global) -> Result<Self, ComputeError>
        ensures { MatchResult result
            (λ unique. rows unique ≡ distinct value_row range (rows self.now)) IsMemory };

    /// Returns the number of distinct rows. Null counts as a row.
    fn n_unique(&self) -> usize
        ensures { result ≡ length (distinct value_row range (rows self.now)) };

    /// Returns the number of distinct rows that are present.
    fn n_unique_non_null(&self) -> usize
        ensures { result ≡ length (distinct_values range (rows self.now)) };
}

/// An array in which equal rows are adjacent, as in a sorted array, and whose distinct rows can be
/// counted and listed. This trait has no implementation.
pub trait SortedUniqueKernel: Sized + Array {
    /// Returns an array of the distinct rows of `fst` and of all `others`, each once and in the
    /// order of their first occurrences. Null counts as a row. Equal rows must be adjacent if the
    /// arrays are read one after another. All arrays must have the type of `fst`, which is also the
    /// type of the result. The error is `Memory`.
    fn unique_fold(alloc: Global, fst: &Self, others: &[&Self]) -> Result<Self, ComputeError>
        requires good { Self.good fst.now }
        requires all_good { All (λ array. Self.good array.now) others.now }
        requires one_type { All (λ array. Self.same_type fst.now array.now) others.now }
        requires adjacent { AreAdjacent
            (rows_under (Self.mask fst.now) (Self.slots fst.now)
            ++ rows_of_all (λ array. rows_under (Self.mask array) (Self.slots array)) others.now) }
        ensures rows { MatchResult result
            (λ unique. AreDistinct
            (rows_under (Self.mask fst.now) (Self.slots fst.now)
            ++ rows_of_all (λ array. rows_under (Self.mask array) (Self.slots array)) others.now)
            (rows_under (Self.mask unique) (Self.slots unique))) IsMemory }
        ensures good { IfOk result (λ unique. Self.good unique) }
        ensures one_type { IfOk result (λ unique. Self.same_type fst.now unique) };

    /// Returns an array of the same type with the distinct rows, each once and in the order of
    /// their first occurrences. Null counts as a row. For example, 2, 2, null, 1 gives 2, null, 1.
    /// The error is `Memory`.
    fn unique(&self, alloc: Global) -> Result<Self, ComputeError>
        requires good { Self.good self.now }
        requires adjacent { AreAdjacent (rows_under (Self.mask self.now) (Self.slots self.now)) }
        ensures rows { MatchResult result
            (λ unique. AreDistinct (rows_under (Self.mask self.now) (Self.slots self.now))
            (rows_under (Self.mask unique) (Self.slots unique))) IsMemory }
        ensures good { IfOk result (λ unique. Self.good unique) }
        ensures one_type { IfOk result (λ unique. Self.same_type self.now unique) };

    /// Returns the number of distinct rows. Null counts as a row.
    fn n_unique(&self) -> usize
        requires good { Self.good self.now }
        requires adjacent { AreAdjacent (rows_under (Self.mask self.now) (Self.slots self.now)) }
        ensures { CountsDistinct (rows_under (Self.mask self.now) (Self.slots self.now)) result };

    /// Returns the number of distinct rows that are present.
    fn n_unique_non_null(&self) -> usize
        requires good { Self.good self.now }
        requires adjacent { AreAdjacent (rows_under (Self.mask self.now) (Self.slots self.now)) }
        ensures { CountsPresent (rows_under (Self.mask self.now) (Self.slots self.now)) result };
}
