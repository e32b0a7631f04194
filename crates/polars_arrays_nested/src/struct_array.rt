//! Arrays of structs.

ghost use Rattle.std.specs.List.{All};
ghost use Rattle.std.specs.Option.{MatchOption};
ghost use Rattle.std.specs.Prelude.{◌≡◌, ◌↔◌, ◌<◌, ◌+◌, ◌≤◌, ℕ, IsTrue, IfOk, IfErr, length};
ghost use Rattle.std.specs.Prelude.{slice_index_or, refl, MatchResult};
ghost use Rattle.std.specs.Result.{OkIff};
ghost use Rattle.polars_arrays_bits.specs.Errors.{IsMemory};
ghost use Rattle.polars_arrays_flat.specs.Row.{Fields};
ghost use Rattle.polars_arrays_flat.specs.StoredRows.{kept};
ghost use Rattle.polars_arrays_flat.specs.Validity.{is_present, masked_count};
ghost use Rattle.polars_arrays_nested.specs.AnyRows.{row};
ghost use Rattle.polars_arrays_nested.specs.Clones.{AreClones, IsClone};
ghost use Rattle.polars_arrays_nested.specs.Columns.{rows_at};
ghost use Rattle.polars_arrays_nested.specs.Cuts.{IsCut};
ghost use Rattle.polars_arrays_nested.specs.Faults.{AreStructs, FitsAt, IsFirstMisfit};
ghost use Rattle.polars_arrays_nested.specs.Faults.{IsStructFault};
ghost use Rattle.polars_arrays_nested.specs.GoodParts.{IsGood};
ghost use Rattle.polars_arrays_nested.specs.Lengths.{len_of};
ghost use Rattle.polars_arrays_nested.specs.Parts.{columns, struct_fields, struct_validity};
ghost use Rattle.polars_arrays_nested.specs.StoredRows.{stored_struct, stored_structs};
ghost use Rattle.polars_arrays_nested.specs.StoredRowLaws.{listed-present};
ghost use Rattle.polars_arrays_nested.specs.Types.{type_of};
ghost use Rattle.polars_arrays_nested.specs.declared.any_array.AnyArray.{AnyArray, Struct};
ghost use Rattle.polars_arrays_nested.specs.declared.any_array.AnyArray.{size-AnyArray};
ghost use Rattle.polars_arrays_nested.specs.declared.struct_array.StructArray.{size-StructArray};

use crate::any_array::AnyArray;
use crate::data_types::clone_fields;
use polars_arrays_bits::bitmap::Bitmap;
use polars_arrays_bits::error::{ArrayError, ComputeError};
use polars_arrays_flat::array::Array;
use polars_arrays_flat::data_type::Field;
use polars_arrays_flat::mask::Mask;
use polars_arrays_flat::validity::{clone_validity, has_bits, null_count, slice_validity};
use std::alloc::Global;

/// An array of structs, with an optional validity. It has a child array (a column) for each field.
#[cycle(arrays)]
#[derive(Drop)]
pub struct StructArray {
    fields: Vec<Field>,
    // number of rows; without fields the values do not determine it
    len: usize,
    values: Vec<AnyArray>,
    validity: Option<Bitmap>,
}

impl StructArray {
    /// Creates an array of `len` structs from one column per field. The errors, in the order of the
    /// checks, are
    /// - `Length`, if the validity does not have one bit per row,
    /// - `Field` with the index of the first column that does not have `len` rows, or does not have
    ///   the type of its field. If one of the lists `fields` and `values` is shorter, and all its
    ///   elements fit, the index is its length.
    #[tactic(auto, using(crate::proofs::Structs::made))]
    pub fn try_new(
        fields: Vec<Field>,
        len: usize,
        values: Vec<AnyArray>,
        validity: Option<Bitmap>,
    ) -> Result<StructArray, ArrayError>
        requires { All IsGood values.items }
        ensures made { OkIff result (AreStructs fields.items len values.items validity)
            (record { fields = fields; len = len; values = values; validity = validity }) }
        ensures refused { IfErr result (IsStructFault fields.items len values.items validity) }
        ensures good { IfOk result (λ a. IsGood (Struct a)) }
        ensures rows { IfOk result
            (λ a. (i : ℕ) → row (Struct a) i
            ≡ kept (is_present validity i) (Fields (rows_at values.items i))) }
    {
        if !has_bits(len, &validity) {
            return Err(ArrayError::Length);
        }
        match first_misfit(&fields, len, &values) {
            Some(at) => Err(ArrayError::Field { at }),
            None => Ok(StructArray {
                fields,
                len,
                values,
                validity,
            }),
        }
    }

    /// Returns the number of rows.
    pub fn len(&self) -> usize
        ensures { result ≡ len_of (Struct self.now) }
    {
        self.len
    }

    /// Returns the fields: the name and the type of each column.
    pub fn fields(&self) -> &[Field]
        ensures { result.now ≡ struct_fields self.now }
    {
        &self.fields
    }

    /// Returns the columns, one array for each field.
    pub fn values(&self) -> &[AnyArray]
        ensures { result.now ≡ columns self.now }
    {
        &self.values
    }

    /// Returns column `i`, the array of field `i`.
    pub fn column(&self, i: usize) -> &AnyArray
        requires { i < length (columns self.now) }
        ensures column { (other : AnyArray) → slice_index_or (columns self.now) i other
            ≡ result.now }
        ensures good { IsGood (Struct self.now) → IsGood result.now
            × (len_of result.now ≡ len_of (Struct self.now)) }
        ensures smaller { size-AnyArray result.now < size-StructArray self.now }
    {
        &self.values[i]
    }

    /// Slices the array in place: only the `n` rows from row `at` on remain.
    #[cycle(slices)]
    pub fn slice(&mut self, at: usize, n: usize)
        requires good { IsGood (Struct self.old) }
        requires within { at + n ≤ len_of (Struct self.old) }
        ensures { IsCut (Struct self.new) (Struct self.old) at n }
    {
        for i in 0..self.values.len() {
            self.values[i].slice(at, n);
        }
        slice_validity(&mut self.validity, at, n);
        self.len = n;
    }

    /// Clones the array. The error is `Memory`.
    #[cycle(clones)]
    #[tactic(auto, using(crate::proofs::Clones::copies))]
    pub fn clone_array(&self, alloc: Global) -> Result<StructArray, ComputeError>
        ensures { MatchResult result (λ copy. IsClone (Struct copy) (Struct self.now)) IsMemory }
    {
        let fields = clone_fields(alloc, &self.fields)?;
        let values = clone_columns(alloc, &self.values)?;
        let validity = clone_validity(alloc, &self.validity)?;
        Ok(StructArray {
            fields,
            len: self.len,
            values,
            validity,
        })
    }
}

// Clones a list of arrays. The error is `Memory`.
#[cycle(clones)]
fn clone_columns(alloc: Global, columns: &[AnyArray]) -> Result<Vec<AnyArray>, ComputeError>
    ensures { MatchResult result (λ copies. AreClones copies.items columns.now) IsMemory }
{
    let mut copies = Vec::new(alloc);
    for column in columns {
        let copy = column.clone_array(alloc)?;
        copies.push(copy)?;
    }
    Ok(copies)
}

// Returns the first index at which the column does not have `len` rows, or does not have the type
// of its field, or only one of the two exists. Returns `None` if there is no such index.
#[tactic(auto, using(crate::proofs::Structs::fits))]
fn first_misfit(fields: &[Field], len: usize, values: &[AnyArray]) -> Option<usize>
    ensures { MatchOption result ((k : ℕ) → FitsAt fields.now len values.now k)
        (IsFirstMisfit fields.now len values.now) }
{
    for at in 0..fields.len().max(values.len()) {
        if !fits_at(fields, len, values, at) {
            return Some(at);
        }
    }
    None
}

// Returns whether the column at index `at` has `len` rows and the type of the field at this index.
// Returns `true` if neither exists, and `false` if only one does.
#[tactic(auto, using(crate::proofs::Structs::fits))]
fn fits_at(fields: &[Field], len: usize, values: &[AnyArray], at: usize) -> bool
    ensures { IsTrue result ↔ FitsAt fields.now len values.now at }
{
    match (fields.get(at), values.get(at)) {
        (Some(field), Some(column)) => column.len() == len && column.has_type(&field.dtype),
        (None, None) => true,
        _ => false,
    }
}

impl Array for StructArray {
    ghost slots = { stored_structs };

    ghost validity_bits = { struct_validity };

    ghost mask = { struct_validity };

    ghost nulls = { λ a. masked_count (struct_validity a) };

    ghost same_type = { λ a b. type_of (Struct a) ≡ type_of (Struct b) };

    ghost good = { λ a. IsGood (Struct a) };

    #[tactic(auto, using(crate::proofs::Lengths::lengths))]
    fn len(&self) -> usize {
        self.len
    }

    #[tactic(auto, using(crate::proofs::Lengths::lengths))]
    fn validity(&self) -> Option<&Bitmap> {
        self.validity.as_ref()
    }

    #[tactic(auto, using(crate::proofs::Lengths::lengths))]
    fn missing_mask(&self, _alloc: Global) -> Result<Mask<'_>, ComputeError> {
        Ok(Mask::lent(self.validity()))
    }

    #[tactic(auto, using(crate::proofs::NullCounts::nulls_counted))]
    fn null_count(&self) -> usize {
        null_count(&self.validity)
    }

    ghost null_law = { λ a b i within is_null. absurd
        (listed-present (stored_struct a) _ i (λ k. refl) within is_null) };
}
