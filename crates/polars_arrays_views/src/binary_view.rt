//! Arrays of byte strings that have a view for each row.

ghost use Rattle.std.specs.Prelude.{◌≡◌, ◌<◌, ◌≤◌, ◌+◌, [], length, slice_index_or, IfOk, IfErr};
ghost use Rattle.std.specs.Prelude.{MatchOption, IsOk, MatchResult, ⊤, refl};
ghost use Rattle.std.specs.List.{All};
ghost use Rattle.std.specs.Result.{OkIff};
ghost use Rattle.polars_arrays_bits.specs.Errors.{IsMemory};
ghost use Rattle.polars_arrays_flat.specs.DataType.{kind_of};
ghost use Rattle.polars_arrays_flat.specs.Kind.{BinaryViewKind};
ghost use Rattle.polars_arrays_flat.specs.SlotLaws.{byte_slots-present};
ghost use Rattle.polars_arrays_flat.specs.StoredRows.{rows_under, byte_slots};
ghost use Rattle.polars_arrays_flat.specs.Validity.{masked_count, validity_window, window};
ghost use Rattle.polars_arrays_views.specs.Faults.{IsFirstBadView, IsFirstFault};
ghost use Rattle.polars_arrays_views.specs.Parts.{contents, strings_of, view_rows, view_strings};
ghost use Rattle.polars_arrays_views.specs.Parts.{GoodParts};
ghost use Rattle.polars_arrays_views.specs.Views.{row_bytes, GoodView};

use crate::view::View;
use polars_arrays_bits::bitmap::Bitmap;
use polars_arrays_bits::buffer::Buffer;
use polars_arrays_bits::error::{ArrayError, ComputeError};
use polars_arrays_flat::array::Array;
use polars_arrays_flat::byte_rows::ByteRows;
use polars_arrays_flat::data_type::ArrowDataType;
use polars_arrays_flat::mask::Mask;
use polars_arrays_flat::validity::{clone_validity, has_bits, null_count, slice_validity};
use std::alloc::Global;
use std::marker::Model;

/// An array of byte strings, with an optional validity. Each row has a view, which holds a string
/// of at most 12 bytes, or says in which buffer a longer string lies.
#[derive(Drop)]
pub struct BinaryViewArray {
    views: Buffer<View>,
    buffers: Vec<Buffer<u8>>,
    validity: Option<Bitmap>,
}

impl Model for BinaryViewArray {
    ghost use Rattle.polars_arrays_views.specs.Parts.{contents, GoodParts, ViewParts};

    ghost Value = { ViewParts };

    ghost view = { λ a. record
        { views = a.views.items; buffers = contents a.buffers.items; validity = a.validity } };

    ghost invariant = { λ a. GoodParts
        (record {
          views = a.views.items;
          buffers = contents a.buffers.items;
          validity =
              a.validity;
        }) };
}

impl BinaryViewArray {
    /// Creates an array of one view per row, the buffers of the rows of more than 12 bytes, and a
    /// validity. The errors, in the order of the checks, are
    /// - `Length`, if the validity does not have one bit per view,
    /// - `View` with the first row whose view is bad: the row's buffer does not exist, the row lies
    ///   outside its buffer or does not begin with the view's prefix, or the row has at most 12
    ///   bytes and is not padded with zeros.
    ///
    /// The views of null rows are checked too.
    pub fn try_new(
        views: Buffer<View>,
        buffers: Vec<Buffer<u8>>,
        validity: Option<Bitmap>,
    ) -> Result<BinaryViewArray, ArrayError>
        ensures made { OkIff result
            (GoodParts
            (record { views = views.items; buffers = contents buffers.items; validity = validity }))
            (record {
              views = views.items;
              buffers = contents buffers.items;
              validity =
                  validity;
            }) }
        ensures refused { IfErr result
            (IsFirstFault
            (record {
              views = views.items;
              buffers = contents buffers.items;
              validity =
                  validity;
            })) }
        ensures rows { IfOk result
            (λ a. view_rows a
            ≡ rows_under validity (byte_slots (strings_of (contents buffers.items) views.items))) }
    {
        if !has_bits(views.len(), &validity) {
            return Err(ArrayError::Length);
        }
        match first_bad_view(views.as_slice(), &buffers) {
            Some(row) => Err(ArrayError::View { row }),
            None => Ok(BinaryViewArray {
                views,
                buffers,
                validity,
            }),
        }
    }

    /// Returns the views, including those of masked rows.
    pub fn views(&self) -> &[View]
        ensures value { result.now ≡ self.now.views }
        ensures good { All (GoodView self.now.buffers) self.now.views }
    {
        self.views.as_slice()
    }

    /// Returns the buffers that hold the rows of more than 12 bytes.
    pub fn buffers(&self) -> &[Buffer<u8>]
        ensures { contents result.now ≡ self.now.buffers }
    {
        &self.buffers
    }

    /// Returns the view of row `i`, also if the row is masked.
    #[inline]
    pub fn view(&self, i: usize) -> &View
        requires { i < length self.now.views }
        ensures value { result.now ≡ slice_index_or self.now.views i [] }
        ensures good { GoodView self.now.buffers result.now }
        ensures row { row_bytes self.now.buffers result.now
            ≡ slice_index_or (view_strings self.now) i [] }
    {
        &self.views()[i]
    }

    /// Returns the bytes of row `i`, also if the row is masked.
    #[inline]
    pub fn value(&self, i: usize) -> &[u8]
        requires { i < length self.now.views }
        ensures { result.now ≡ slice_index_or (view_strings self.now) i [] }
    {
        let view = self.view(i);
        if view.len() <= 12 {
            view.inlined()
        } else {
            view.in_buffer(self.buffers())
        }
    }

    /// Slices the array in place: only the `n` rows from row `at` on remain. The buffers don't
    /// change.
    pub fn slice(&mut self, at: usize, n: usize)
        requires { at + n ≤ length self.old.views }
        ensures stored { self.new
            ≡ record {
              views = window at n self.old.views;
              buffers = self.old.buffers;
              validity =
                  validity_window at n self.old.validity;
            } }
        ensures strings { view_strings self.new ≡ window at n (view_strings self.old) }
        ensures rows { view_rows self.new ≡ window at n (view_rows self.old) }
    {
        self.views.slice(at, n);
        slice_validity(&mut self.validity, at, n);
    }

    /// Clones the array. The error is `Memory`.
    pub fn clone_array(&self, alloc: Global) -> Result<BinaryViewArray, ComputeError>
        ensures { MatchResult result (λ copy. copy ≡ self.now) IsMemory }
    {
        let views = self.views.clone_buffer(alloc)?;
        let buffers = clone_buffers(alloc, &self.buffers)?;
        let validity = clone_validity(alloc, &self.validity)?;
        Ok(BinaryViewArray {
            views,
            buffers,
            validity,
        })
    }

    /// Returns the array's type. Always succeeds, since it does not allocate.
    pub fn dtype(&self, _alloc: Global) -> Result<ArrowDataType, ComputeError>
        ensures dtype { MatchResult result (λ dtype. kind_of dtype ≡ BinaryViewKind) IsMemory }
        ensures succeeds { IsOk result }
    {
        Ok(ArrowDataType::BinaryView)
    }
}

impl Array for BinaryViewArray {
    ghost slots = { λ a. byte_slots (view_strings a) };

    ghost validity_bits = { λ a. a.validity };

    ghost mask = { λ a. a.validity };

    ghost nulls = { λ a. masked_count a.validity };

    ghost same_type = { λ a b. ⊤ };

    ghost good = { λ a. ⊤ };

    fn len(&self) -> usize {
        self.views.len()
    }

    fn validity(&self) -> Option<&Bitmap> {
        self.validity.as_ref()
    }

    fn missing_mask(&self, _alloc: Global) -> Result<Mask<'_>, ComputeError> {
        Ok(Mask::lent(self.validity()))
    }

    fn null_count(&self) -> usize {
        null_count(&self.validity)
    }

    ghost null_law = { λ a b i within is_null. absurd
        (byte_slots-present (view_strings a) i within is_null) };
}

impl ByteRows for BinaryViewArray {
    ghost strings = { λ a. view_strings a };

    fn count(&self) -> usize {
        self.views.len()
    }

    fn bytes(&self, i: usize) -> &[u8] {
        self.value(i)
    }

    ghost slots_law = { λ a. refl };
}

// Returns the first row whose view is not good for these buffers, or `None` if all views are good.
fn first_bad_view(views: &[View], buffers: &[Buffer<u8>]) -> Option<usize>
    ensures { MatchOption result (All (GoodView (contents buffers.now)) views.now)
        (IsFirstBadView (contents buffers.now) views.now) }
{
    for (row, view) in views.iter().enumerate() {
        if !view.is_good(buffers) {
            return Some(row);
        }
    }
    None
}

// Clones each buffer. The error is `Memory`.
fn clone_buffers(alloc: Global, buffers: &[Buffer<u8>]) -> Result<Vec<Buffer<u8>>, ComputeError>
    ensures { MatchResult result (λ copies. copies.items ≡ buffers.now) IsMemory }
{
    let mut copies = Vec::with_capacity(alloc, buffers.len())?;
    for buffer in buffers {
        copies.push(buffer.clone_buffer(alloc)?)?;
    }
    Ok(copies)
}
