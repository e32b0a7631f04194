//! The arrays that the demo compares. Each function makes one side of a pair.

ghost use Rattle.std.specs.Prelude.{IfOk};
ghost use Rattle.polars_arrays_nested.specs.GoodParts.{IsGood};

use crate::demo::arrays::{entries, lists, nulls, numbers, strings, structs, texts};
use crate::demo::fault::Fault;
use polars_arrays_nested::any_array::AnyArray;
use polars_arrays_views::view::View;
use std::alloc::Global;

/// Creates an array of structs with the field `a: i32`.
pub fn one_field(alloc: Global, a: &[i32]) -> Result<Box<AnyArray>, Fault>
    ensures { IfOk result (λ array. IsGood array.value) }
{
    structs(alloc, numbers(alloc, a)?, None)
}

/// Creates an array of structs with the fields `a: i32` and `b: i32`.
pub fn two_fields(alloc: Global, a: &[i32], b: &[i32]) -> Result<Box<AnyArray>, Fault>
    ensures { IfOk result (λ array. IsGood array.value) }
{
    let first = numbers(alloc, a)?;
    structs(alloc, first, Some(numbers(alloc, b)?))
}

/// Creates an array of three lists of numbers: list `i` has the items `offsets[i]..offsets[i + 1]`.
/// The last list is null.
pub fn number_lists(alloc: Global, offsets: &[i32], items: &[i32]) -> Result<Box<AnyArray>, Fault>
    ensures { IfOk result (λ array. IsGood array.value) }
{
    lists(
        alloc,
        offsets,
        Some(&[true, true, false]),
        numbers(alloc, items)?,
    )
}

/// Creates an array of lists of nulls: list `i` has the items `offsets[i]..offsets[i + 1]`. `items`
/// is the number of nulls in all lists.
pub fn null_lists(alloc: Global, offsets: &[i32], items: usize) -> Result<Box<AnyArray>, Fault>
    ensures { IfOk result (λ array. IsGood array.value) }
{
    lists(alloc, offsets, None, nulls(alloc, items)?)
}

/// Creates a dictionary array of three rows with the keys `keys`. The second row is null. The two
/// entries are the characters of `letters`.
pub fn letters(alloc: Global, keys: &[u32], letters: &str) -> Result<Box<AnyArray>, Fault>
    ensures { IfOk result (λ array. IsGood array.value) }
{
    let texts = texts(alloc, &[0, 1, 2], letters, None)?;
    entries(alloc, keys, &[true, false, true], texts)
}

/// Creates an array of the byte strings `a` and `abcdefghijkl`. Each lies in its view.
pub fn short_strings(alloc: Global) -> Result<Box<AnyArray>, Fault>
    ensures { IfOk result (λ array. IsGood array.value) }
{
    strings(
        alloc,
        &[View::of_short(b"a"), View::of_short(b"abcdefghijkl")],
        b"",
    )
}

/// Creates an array of two byte strings: `a` with a zero byte after it, which lies in its view, and
/// `abcdefghijklm`, which lies in a buffer.
pub fn long_strings(alloc: Global) -> Result<Box<AnyArray>, Fault>
    ensures { IfOk result (λ array. IsGood array.value) }
{
    // length, prefix, index of the buffer, offset in the buffer
    let long = View::new([13, 0, 0, 0, b'a', b'b', b'c', b'd', 0, 0, 0, 0, 0, 0, 0, 0]);
    strings(alloc, &[View::of_short(b"a\0"), long], b"abcdefghijklm")
}

/// Creates an array of two lists: one of two structs `{a: i32, b: Utf8}`, and an empty one.
/// `present` says which of the two texts `b` are not null.
pub fn struct_lists(alloc: Global, present: &[bool]) -> Result<Box<AnyArray>, Fault>
    ensures { IfOk result (λ array. IsGood array.value) }
{
    let a = numbers(alloc, &[1, 2])?;
    let b = texts(alloc, &[0, 1, 2], "pq", Some(present))?;
    lists(alloc, &[0, 2, 2], None, structs(alloc, a, Some(b))?)
}
