//! Numbers that are computed one by one and written into the caller's memory.

ghost use Rattle.std.specs.Prelude.{◌≡◌, ◌<◌, ℤ, List, length, map, slice_get, Some};

use polars_arrays_numbers::native_type::NativeType;

/// A list of numbers that can be computed one by one, each from its index.
pub trait Computed<T: NativeType> {
    // The numbers, from index 0 on.
    ghost numbers: { Self → List ℤ };

    /// Returns how many numbers there are.
    fn count(&self) -> usize
        ensures { result ≡ length (numbers self.now) };

    /// Returns the number at index `i`.
    fn number(&self, i: usize) -> T
        requires { i < length (numbers self.now) }
        ensures { slice_get (numbers self.now) i ≡ Some (T.value result) };
}

/// Computes all numbers of `computed`, and writes them into `out`, which has one element for each.
pub fn write<T: NativeType, C: Computed<T>>(computed: &C, out: &mut [T])
    requires { length out.old ≡ length (C.numbers computed.now) }
    ensures { map T.value out.new ≡ C.numbers computed.now }
{
    for i in 0..computed.count() {
        out[i] = computed.number(i);
    }
}
