//! The trait `MinMaxKernel`: the least and the greatest present row of an array or a slice.

ghost use Rattle.std.specs.Prelude.{List, MatchOption};
ghost use Rattle.polars_arrays_flat.specs.Row.{Row};
ghost use Rattle.polars_compare_extremes.specs.Extremes.{IsGreatest, IsLeast, NonePresent};

/// The least and the greatest row of an array of numbers or truth values, or of a slice of numbers.
/// No row is a NaN, so the methods with `propagate_nan` in their name return the same as those with
/// `ignore_nan`. No method allocates.
pub trait MinMaxKernel {
    /// The type of the least and the greatest row.
    type Scalar: Copy;

    // The rows of the array, or the numbers of the slice as rows.
    ghost rows: { Self → List Row };

    // The row that a scalar stands for.
    ghost scalar_row: { Self.Scalar → Row };

    /// Returns the least present row, or `None` if no row is present.
    fn min_ignore_nan_kernel(&self) -> Option<Self::Scalar>
        ensures { MatchOption result (NonePresent (rows self.now))
            (λ found. IsLeast (rows self.now) (scalar_row found)) };

    /// Returns the greatest present row, or `None` if no row is present.
    fn max_ignore_nan_kernel(&self) -> Option<Self::Scalar>
        ensures { MatchOption result (NonePresent (rows self.now))
            (λ found. IsGreatest (rows self.now) (scalar_row found)) };

    /// Returns the least and the greatest present row, or `None` if no row is present.
    fn min_max_ignore_nan_kernel(&self) -> Option<(Self::Scalar, Self::Scalar)>
        ensures { MatchOption result (NonePresent (rows self.now))
            (λ pair. IsLeast (rows self.now) (scalar_row pair.0)
            × IsGreatest (rows self.now) (scalar_row pair.1)) }
    {
        let least = self.min_ignore_nan_kernel()?;
        let greatest = self.max_ignore_nan_kernel()?;
        Some((least, greatest))
    }

    /// Returns the least present row, or `None` if no row is present, as `min_ignore_nan_kernel`
    /// does.
    final fn min_propagate_nan_kernel(&self) -> Option<Self::Scalar>
        ensures { MatchOption result (NonePresent (rows self.now))
            (λ found. IsLeast (rows self.now) (scalar_row found)) }
    {
        self.min_ignore_nan_kernel()
    }

    /// Returns the greatest present row, or `None` if no row is present, as `max_ignore_nan_kernel`
    /// does.
    final fn max_propagate_nan_kernel(&self) -> Option<Self::Scalar>
        ensures { MatchOption result (NonePresent (rows self.now))
            (λ found. IsGreatest (rows self.now) (scalar_row found)) }
    {
        self.max_ignore_nan_kernel()
    }

    /// Returns the least and the greatest present row, or `None` if no row is present, as
    /// `min_max_ignore_nan_kernel` does.
    final fn min_max_propagate_nan_kernel(&self) -> Option<(Self::Scalar, Self::Scalar)>
        ensures { MatchOption result (NonePresent (rows self.now))
            (λ pair. IsLeast (rows self.now) (scalar_row pair.0)
            × IsGreatest (rows self.now) (scalar_row pair.1)) }
    {
        self.min_max_ignore_nan_kernel()
    }
}
