//! The least and the greatest row of arrays of byte strings or texts, borrowed from the array.

ghost use Rattle.std.specs.Prelude.{MatchOption};
ghost use Rattle.polars_arrays_flat.specs.Row.{Bytes};
ghost use Rattle.polars_arrays_flat.specs.StoredRows.{rows_under};
ghost use Rattle.polars_compare_extremes.specs.Extremes.{IsGreatest, IsLeast, NonePresent};

use polars_arrays_flat::byte_rows::ByteRows;

/// The least and the greatest row of an array of byte strings, as slices borrowed from the array.
/// No byte string is a NaN, so the methods with `propagate_nan` in their name return the same as
/// those with `ignore_nan`. No method allocates.
///
/// Call these methods by path, as in `BytesMinMaxKernel::min_ignore_nan_kernel(&array)`, since
/// `MinMaxKernel` has methods with the same names.
pub trait BytesMinMaxKernel: ByteRows {
    /// Returns the least present row, or `None` if no row is present.
    fn min_ignore_nan_kernel(&self) -> Option<&[u8]>
        ensures { MatchOption result
            (NonePresent (rows_under (Self.mask self.now) (Self.slots self.now)))
            (λ bytes. IsLeast (rows_under (Self.mask self.now) (Self.slots self.now))
            (Bytes bytes.now)) };

    /// Returns the greatest present row, or `None` if no row is present.
    fn max_ignore_nan_kernel(&self) -> Option<&[u8]>
        ensures { MatchOption result
            (NonePresent (rows_under (Self.mask self.now) (Self.slots self.now)))
            (λ bytes. IsGreatest (rows_under (Self.mask self.now) (Self.slots self.now))
            (Bytes bytes.now)) };

    /// Returns the least and the greatest present row, or `None` if no row is present.
    final fn min_max_ignore_nan_kernel(&self) -> Option<(&[u8], &[u8])>
        ensures { MatchOption result
            (NonePresent (rows_under (Self.mask self.now) (Self.slots self.now)))
            (λ pair. IsLeast (rows_under (Self.mask self.now) (Self.slots self.now))
            (Bytes pair.0.now)
            × IsGreatest (rows_under (Self.mask self.now) (Self.slots self.now))
            (Bytes pair.1.now)) }
    {
        let least = self.min_ignore_nan_kernel()?;
        let greatest = self.max_ignore_nan_kernel()?;
        Some((least, greatest))
    }

    /// Returns the least present row, or `None` if no row is present, as `min_ignore_nan_kernel`
    /// does.
    final fn min_propagate_nan_kernel(&self) -> Option<&[u8]>
        ensures { MatchOption result
            (NonePresent (rows_under (Self.mask self.now) (Self.slots self.now)))
            (λ bytes. IsLeast (rows_under (Self.mask self.now) (Self.slots self.now))
            (Bytes bytes.now)) }
    {
        self.min_ignore_nan_kernel()
    }

    /// Returns the greatest present row, or `None` if no row is present, as `max_ignore_nan_kernel`
    /// does.
    final fn max_propagate_nan_kernel(&self) -> Option<&[u8]>
        ensures { MatchOption result
            (NonePresent (rows_under (Self.mask self.now) (Self.slots self.now)))
            (λ bytes. IsGreatest (rows_under (Self.mask self.now) (Self.slots self.now))
            (Bytes bytes.now)) }
    {
        self.max_ignore_nan_kernel()
    }

    /// Returns the least and the greatest present row, or `None` if no row is present, as
    /// `min_max_ignore_nan_kernel` does.
    final fn min_max_propagate_nan_kernel(&self) -> Option<(&[u8], &[u8])>
        ensures { MatchOption result
            (NonePresent (rows_under (Self.mask self.now) (Self.slots self.now)))
            (λ pair. IsLeast (rows_under (Self.mask self.now) (Self.slots self.now))
            (Bytes pair.0.now)
            × IsGreatest (rows_under (Self.mask self.now) (Self.slots self.now))
            (Bytes pair.1.now)) }
    {
        self.min_max_ignore_nan_kernel()
    }
}

/// The least and the greatest row of an array of texts, as texts borrowed from the array. Texts are
/// ordered by their bytes in UTF-8. No text is a NaN, so the methods with `propagate_nan` in their
/// name return the same as those with `ignore_nan`. No method allocates.
///
/// Call these methods by path, as in `TextMinMaxKernel::min_ignore_nan_kernel(&array)`, since
/// `MinMaxKernel` has methods with the same names.
pub trait TextMinMaxKernel: ByteRows {
    /// Returns the least present row, or `None` if no row is present.
    fn min_ignore_nan_kernel(&self) -> Option<&str>
        ensures { MatchOption result
            (NonePresent (rows_under (Self.mask self.now) (Self.slots self.now)))
            (λ text. IsLeast (rows_under (Self.mask self.now) (Self.slots self.now))
            (Bytes text.now)) };

    /// Returns the greatest present row, or `None` if no row is present.
    fn max_ignore_nan_kernel(&self) -> Option<&str>
        ensures { MatchOption result
            (NonePresent (rows_under (Self.mask self.now) (Self.slots self.now)))
            (λ text. IsGreatest (rows_under (Self.mask self.now) (Self.slots self.now))
            (Bytes text.now)) };

    /// Returns the least and the greatest present row, or `None` if no row is present.
    final fn min_max_ignore_nan_kernel(&self) -> Option<(&str, &str)>
        ensures { MatchOption result
            (NonePresent (rows_under (Self.mask self.now) (Self.slots self.now)))
            (λ pair. IsLeast (rows_under (Self.mask self.now) (Self.slots self.now))
            (Bytes pair.0.now)
            × IsGreatest (rows_under (Self.mask self.now) (Self.slots self.now))
            (Bytes pair.1.now)) }
    {
        let least = self.min_ignore_nan_kernel()?;
        let greatest = self.max_ignore_nan_kernel()?;
        Some((least, greatest))
    }

    /// Returns the least present row, or `None` if no row is present, as `min_ignore_nan_kernel`
    /// does.
    final fn min_propagate_nan_kernel(&self) -> Option<&str>
        ensures { MatchOption result
            (NonePresent (rows_under (Self.mask self.now) (Self.slots self.now)))
            (λ text. IsLeast (rows_under (Self.mask self.now) (Self.slots self.now))
            (Bytes text.now)) }
    {
        self.min_ignore_nan_kernel()
    }

    /// Returns the greatest present row, or `None` if no row is present, as `max_ignore_nan_kernel`
    /// does.
    final fn max_propagate_nan_kernel(&self) -> Option<&str>
        ensures { MatchOption result
            (NonePresent (rows_under (Self.mask self.now) (Self.slots self.now)))
            (λ text. IsGreatest (rows_under (Self.mask self.now) (Self.slots self.now))
            (Bytes text.now)) }
    {
        self.max_ignore_nan_kernel()
    }

    /// Returns the least and the greatest present row, or `None` if no row is present, as
    /// `min_max_ignore_nan_kernel` does.
    final fn min_max_propagate_nan_kernel(&self) -> Option<(&str, &str)>
        ensures { MatchOption result
            (NonePresent (rows_under (Self.mask self.now) (Self.slots self.now)))
            (λ pair. IsLeast (rows_under (Self.mask self.now) (Self.slots self.now))
            (Bytes pair.0.now)
            × IsGreatest (rows_under (Self.mask self.now) (Self.slots self.now))
            (Bytes pair.1.now)) }
    {
        self.min_max_ignore_nan_kernel()
    }
}
