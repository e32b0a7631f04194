//! Windows of two arrays of any kind: `n` rows from row `a` on of the left array and from row `b`
//! on of the right one.
//!
//! - `array_tot_eq_missing_kernel_counted A B [LEAVES]`, and in the same form with `ne` in place of
//!   `eq`, for all rows of two arrays: `BITS in N comparisons`
//! - `equal_windows A a B b n [LEAVES]`: `BITS in N comparisons`
//! - `eq_lists`, `eq_fixed_size_lists`, `eq_structs`, `eq_dictionaries`, `leaf_eq`, with the
//!   operands of `equal_windows`: `BITS in N comparisons`, with `x` for masked rows
//!
//! LEAVES is `always` or `never`, for a kernel in which all leaves agree, or none. Without it,
//! leaves agree if they are equal.
//!
//! Each function also fails with `Word` if a word is missing or malformed, and with `Case` if an
//! array does not exist.

ghost use Rattle.std.specs.Prelude.{◌≡◌, ◌+◌, ◌≤◌, IfOk, IsTrue};
ghost use Rattle.polars_arrays_nested.specs.GoodParts.{IsGood};
ghost use Rattle.polars_arrays_nested.specs.Types.{type_of};
ghost use Rattle.polars_compare_nested.specs.Leaf.{is_leaf};
ghost use Rattle.recorded_text.specs.Cases.{HasGoodArrays};
ghost use Rattle.recorded_kernels.specs.Windows.{AreWindows};

use crate::counters::{COMPARISONS, add_count};
use crate::leaf_kernels::{Same, SeenKernel};
use crate::operands::read_two;
use crate::raw_bits::write_raw;
use polars_arrays_bits::bitmap::Bitmap;
use polars_arrays_bits::error::ComputeError;
use polars_arrays_nested::any_array::AnyArray;
use polars_arrays_numbers::steps::Steps;
use polars_compare_leaves::joining::Relation;
use polars_compare_nested::kernels::{
    array_tot_eq_missing_kernel_counted, array_tot_ne_missing_kernel_counted,
};
use polars_compare_nested::leaf_kernel::LeafKernel;
use polars_compare_nested::windows::{
    eq_dictionaries, eq_fixed_size_lists, eq_lists, eq_structs, equal_windows,
};
use recorded_text::bits_text::write_made;
use recorded_text::fault::Fault;
use recorded_text::store::Store;
use recorded_text::words::Words;
use std::alloc::Global;

/// `n` rows from row `a` on of the left array and from row `b` on of the right one.
#[derive(Clone, Copy)]
pub struct Windows<'a> {
    pub left: &'a AnyArray,
    pub a: usize,
    pub right: &'a AnyArray,
    pub b: usize,
    pub n: usize,
}

/// A call that counts the comparisons of leaves. `Lists` and the variants after it compare the
/// stored rows of windows of two arrays of the kind in their name.
#[derive(Clone, Copy)]
pub enum Counted {
    /// The equal or the unequal rows of two whole arrays, null equal to null alone.
    Missing(Relation),
    /// The equal rows of windows, null equal to null alone.
    Windows,
    /// The equal stored lists of windows.
    Lists,
    FixedSizeLists,
    Structs,
    Dictionaries,
    Leaves,
}

/// Reads two windows, or two whole arrays for `Missing`, and then `always` or `never` if there is
/// such a word. Returns the text of the bits of `call` and the number of comparisons of leaves. The
/// error is `Case` if the types of the arrays differ, if `call` does not compare arrays of their
/// kind, if a window is out of range, or for `Missing` if the lengths differ.
pub fn ask(alloc: Global, call: Counted, store: &Store, words: &mut Words) -> Result<String, Fault>
    requires { HasGoodArrays store.now }
{
    let windows = match call {
        Counted::Missing(_) => read_all_rows(store, words)?,
        _ => read_windows(store, words)?,
    };
    if !windows.left.same_type(windows.right) {
        return Err(Fault::Case);
    }
    if words.take("always") {
        compare::<Same<true>>(alloc, call, windows)
    } else if words.take("never") {
        compare::<Same<false>>(alloc, call, windows)
    } else {
        compare::<Steps>(alloc, call, windows)
    }
}

// Reads the name of an array and a number from the next two words. The number is not checked
// against the length of the array.
fn read_place<'a>(store: &'a Store, words: &mut Words) -> Result<(&'a AnyArray, usize), Fault>
    requires { HasGoodArrays store.now }
    ensures { IfOk result (λ place. IsGood place.0.now) }
{
    let array = store.read(words)?;
    let at = words.read_number()?;
    Ok((array, at))
}

/// Reads `A a B b n` from the next words, and returns the two windows. The error is `Case` if a
/// window is out of range.
pub fn read_windows<'a>(store: &'a Store, words: &mut Words) -> Result<Windows<'a>, Fault>
    requires { HasGoodArrays store.now }
    ensures { IfOk result (λ windows. AreWindows windows) }
{
    let (left, a) = read_place(store, words)?;
    let (right, b) = read_place(store, words)?;
    let n = words.read_number()?;
    if is_within(a, n, left.len()) && is_within(b, n, right.len()) {
        Ok(Windows {
            left,
            a,
            right,
            b,
            n,
        })
    } else {
        Err(Fault::Case)
    }
}

// Reads the names of two arrays, and returns windows of all their rows. The error is `Case` if
// their lengths differ.
fn read_all_rows<'a>(store: &'a Store, words: &mut Words) -> Result<Windows<'a>, Fault>
    requires { HasGoodArrays store.now }
    ensures { IfOk result (λ windows. AreWindows windows) }
{
    let (left, right) = read_two(store, words)?;
    let n = left.len();
    if n != right.len() {
        return Err(Fault::Case);
    }
    Ok(Windows {
        left,
        a: 0,
        right,
        b: 0,
        n,
    })
}

/// Returns whether the `n` places from place `at` on are all below `len`.
pub fn is_within(at: usize, n: usize, len: usize) -> bool
    ensures { IsTrue result → at + n ≤ len }
{
    at <= len && n <= len - at
}

// Returns the text of the bits of `call` for two windows by a new kernel of type `K`, and the
// number of comparisons that the kernel has counted.
fn compare<K: SeenKernel + Drop>(
    alloc: Global,
    call: Counted,
    windows: Windows,
) -> Result<String, Fault>
    requires windows { AreWindows windows }
    requires one_type { type_of windows.left.now ≡ type_of windows.right.now }
{
    let mut kernel = K::new();
    let text = compare_by(alloc, call, windows, &mut kernel);
    add_count(text, kernel.seen(), COMPARISONS)
}

// Returns the text of the bits of `call` for two windows by `kernel`. The error is `Case` if the
// arrays are of a kind that `call` does not compare.
fn compare_by<K: LeafKernel>(
    alloc: Global,
    call: Counted,
    windows: Windows,
    kernel: &mut K,
) -> Result<String, Fault>
    requires windows { AreWindows windows }
    requires one_type { type_of windows.left.now ≡ type_of windows.right.now }
{
    match equal_bits(alloc, call, windows, kernel) {
        Some(bits) => write_made(alloc, bits),
        None => write_stored(alloc, stored_bits(alloc, call, windows, kernel), windows),
    }
}

// Returns the bits of `Windows` or `Missing`, which are defined for null rows too. Returns `None`
// for any other call, and for `Missing` if the lengths of the arrays differ.
fn equal_bits<K: LeafKernel>(
    alloc: Global,
    call: Counted,
    windows: Windows,
    kernel: &mut K,
) -> Option<Result<Bitmap, ComputeError>>
    requires windows { AreWindows windows }
    requires one_type { type_of windows.left.now ≡ type_of windows.right.now }
{
    let Windows {
        left,
        a,
        right,
        b,
        n,
    } = windows;
    match call {
        Counted::Windows => Some(equal_windows(alloc, left, a, right, b, n, kernel)),
        Counted::Missing(_) if left.len() != right.len() => None,
        Counted::Missing(Relation::Equal) => {
            Some(array_tot_eq_missing_kernel_counted(alloc, left, right, kernel))
        }
        Counted::Missing(Relation::Unequal) => {
            Some(array_tot_ne_missing_kernel_counted(alloc, left, right, kernel))
        }
        _ => None,
    }
}

// Compares the stored rows of two windows of one type by the function that `call` names, and
// returns the bits. Returns `None` if the arrays are not of a kind that this function compares.
fn stored_bits<K: LeafKernel>(
    alloc: Global,
    call: Counted,
    windows: Windows,
    kernel: &mut K,
) -> Option<Result<Bitmap, ComputeError>>
    requires windows { AreWindows windows }
    requires one_type { type_of windows.left.now ≡ type_of windows.right.now }
{
    let Windows {
        left,
        a,
        right,
        b,
        n,
    } = windows;
    match (call, left, right) {
        (Counted::Leaves, _, _) if has_leaves(left) => {
            Some(kernel.leaf_eq(alloc, left, a, right, b, n))
        }
        (Counted::Lists, AnyArray::List(left), AnyArray::List(right)) => {
            Some(eq_lists(alloc, left, a, right, b, n, kernel))
        }
        (Counted::FixedSizeLists, AnyArray::FixedSizeList(left), AnyArray::FixedSizeList(right)) =>
            Some(eq_fixed_size_lists(alloc, left, a, right, b, n, kernel)),
        (Counted::Structs, AnyArray::Struct(left), AnyArray::Struct(right)) => {
            Some(eq_structs(alloc, left, a, right, b, n, kernel))
        }
        (Counted::Dictionaries, AnyArray::Dictionary(left), AnyArray::Dictionary(right)) => {
            Some(eq_dictionaries(alloc, left, a, right, b, n, kernel))
        }
        _ => None,
    }
}

// Returns the text of `bits`, with `x` where a row of either window is masked. The error is `Case`
// if `bits` is `None`. If `bits` holds an error, converts it to a `Fault`.
fn write_stored(
    alloc: Global,
    bits: Option<Result<Bitmap, ComputeError>>,
    windows: Windows,
) -> Result<String, Fault>
    requires { AreWindows windows }
{
    let Some(bits) = bits else {
        return Err(Fault::Case);
    };
    let Windows {
        left,
        a,
        right,
        b,
        n,
    } = windows;
    write_raw(
        alloc,
        &bits?,
        left.window_mask(alloc, a, n),
        right.window_mask(alloc, b, n),
    )
}

// Returns whether the rows of `array` are leaves: truth values, numbers, byte strings or texts.
fn has_leaves(array: &AnyArray) -> bool
    ensures { IsTrue result → IsTrue (is_leaf (type_of array.now)) }
{
    match array {
        AnyArray::Boolean(_) => true,
        AnyArray::Int8(_) | AnyArray::Int16(_) | AnyArray::Int32(_) | AnyArray::Int64(_) => true,
        AnyArray::UInt8(_) | AnyArray::UInt16(_) | AnyArray::UInt32(_) | AnyArray::UInt64(_) =>
            true,
        AnyArray::Int128(_) | AnyArray::UInt128(_) => true,
        AnyArray::Binary(_) | AnyArray::LargeBinary(_) | AnyArray::FixedSizeBinary(_) => true,
        AnyArray::Utf8(_) | AnyArray::LargeUtf8(_) => true,
        AnyArray::BinaryView(_) | AnyArray::Utf8View(_) => true,
        _ => false,
    }
}
