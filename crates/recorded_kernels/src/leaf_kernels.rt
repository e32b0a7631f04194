//! Implementations of `LeafKernel` whose counters begin as those of `lent_counter`.

ghost use Rattle.std.specs.Prelude.{◌≡◌};

use crate::counters::lent_counter;
use polars_arrays_bits::bitmap::Bitmap;
use polars_arrays_bits::error::ComputeError;
use polars_arrays_nested::any_array::AnyArray;
use polars_arrays_numbers::steps::Steps;
use polars_compare_nested::leaf_kernel::LeafKernel;
use std::alloc::Global;

/// A kernel of leaves with a counter that is created by `lent_counter`.
pub trait SeenKernel: LeafKernel {
    /// Creates a kernel whose counter is one that `lent_counter` returns.
    fn new() -> Self;

    /// Returns the count of the kernel's counter, including the count that `lent_counter` begins
    /// with.
    fn seen(&self) -> u64;
}

impl SeenKernel for Steps {
    fn new() -> Steps {
        lent_counter()
    }

    fn seen(&self) -> u64 {
        Steps::seen(self)
    }
}

/// A kernel of leaves that compares nothing: any two leaves agree if `AGREE` is true, and none
/// agree otherwise. `steps` counts the pairs of leaves.
#[derive(Drop)]
pub struct Same<const AGREE: bool> {
    steps: Steps,
}

impl<const AGREE: bool> LeafKernel for Same<AGREE> {
    ghost agree = { λ _ _. AGREE };

    ghost count = { λ kernel. kernel.steps };

    // Returns `n` bits that are all `AGREE`, and counts `n` pairs. The error is `Memory`.
    fn leaf_eq(
        &mut self,
        alloc: Global,
        _left: &AnyArray,
        _a: usize,
        _right: &AnyArray,
        _b: usize,
        n: usize,
    ) -> Result<Bitmap, ComputeError> {
        let bits = Bitmap::new_with_value(alloc, AGREE, n)?;
        self.steps.add(n);
        Ok(bits)
    }
}

impl<const AGREE: bool> SeenKernel for Same<AGREE> {
    fn new() -> Same<AGREE> {
        Same {
            steps: lent_counter(),
        }
    }

    fn seen(&self) -> u64 {
        self.steps.seen()
    }
}
