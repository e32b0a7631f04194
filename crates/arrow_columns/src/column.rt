//! Columns that borrow their numbers.

ghost use Rattle.std.specs.Option.{option_copied};
ghost use Rattle.std.specs.Prelude.{◌≡◌, false, length, IfErr};
ghost use Rattle.std.specs.Result.{OkIff};
ghost use Rattle.polars_arrays_flat.specs.ArrayRows.{null_total, number_rows};
ghost use Rattle.polars_arrays_flat.specs.Validity.{HasBits};

use polars_arrays_bits::bit_mask::BitMask;
use polars_arrays_bits::bitmap::Bitmap;
use polars_arrays_bits::error::ArrayError;
use polars_arrays_flat::validity::{has_bits, null_count};
use polars_arrays_numbers::native_type::NativeType;
use std::marker::Model;

/// A column of numbers. It borrows the numbers, and owns its validity, if it has one. In contracts,
/// its value is that of an array that does not own its numbers.
#[derive(Drop)]
pub struct Column<'a, T: Copy> {
    values: &'a [T],
    validity: Option<Bitmap>,
}

impl<'a, T: Copy> Model for Column<'a, T> {
    ghost use Rattle.std.specs.Prelude.{false, length};
    ghost use Rattle.polars_arrays_flat.specs.Numbers.{Numbers, numbers_code};
    ghost use Rattle.polars_arrays_flat.specs.Validity.{HasBits};

    ghost Value = { Numbers T };

    ghost coded = { numbers_code T.code };

    ghost view = { λ c. record { values = c.values.now; validity = c.validity; owned = false } };

    ghost invariant = { λ c. HasBits (length c.values.now) c.validity };
}

impl<'a, T: NativeType> Column<'a, T> {
    /// Creates a column of `values`. If `validity` is `None`, all rows are present. Fails with
    /// `Length` if there is a validity that does not have one bit for each value.
    pub fn try_new(values: &'a [T], validity: Option<Bitmap>) -> Result<Column<'a, T>, ArrayError>
        ensures made { OkIff result (HasBits (length values.now) validity)
            (record { values = values.now; validity = validity; owned = false }) }
        ensures refused { IfErr result (λ e. e ≡ ArrayError.Length) }
    {
        if !has_bits(values.len(), &validity) {
            return Err(ArrayError::Length);
        }
        Ok(Column { values, validity })
    }

    /// Returns the number of rows.
    pub fn len(&self) -> usize
        ensures { result ≡ length self.now.values }
    {
        self.values.len()
    }

    /// Returns the stored values, including those of null rows.
    pub fn values(&self) -> &'a [T]
        ensures { result.now ≡ self.now.values }
    {
        self.values
    }

    /// Returns the validity, or `None` if the column has none. The validity has a bit for each row,
    /// 0 if the row is null.
    pub fn validity(&self) -> Option<&Bitmap>
        ensures validity { option_copied result ≡ self.now.validity }
        ensures bits { HasBits (length self.now.values) self.now.validity }
    {
        self.validity.as_ref()
    }

    /// Borrows the validity as a mask, or returns `None` if the column has no validity.
    pub fn mask(&self) -> Option<BitMask<'_>>
        ensures mask { result ≡ self.now.validity }
        ensures bits { HasBits (length self.now.values) self.now.validity }
    {
        match &self.validity {
            Some(bits) => Some(BitMask::from_bitmap(bits)),
            None => None,
        }
    }

    /// Returns the number of null rows.
    #[tactic(auto, using(polars_arrays_flat::proofs::NullCounts::nulls_counted))]
    pub fn null_count(&self) -> usize
        ensures { result ≡ null_total (number_rows T.value self.now) }
    {
        null_count(&self.validity)
    }
}
