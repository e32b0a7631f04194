//! The text of the demo: for each pair of arrays, which rows are equal, and the number of
//! comparisons of leaves.

ghost use Rattle.std.specs.Prelude.{IfOk};
ghost use Rattle.polars_arrays_nested.specs.GoodParts.{IsGood};

use crate::demo::arrays::empty_lists;
use crate::demo::cases::{
    letters, long_strings, null_lists, number_lists, one_field, short_strings, struct_lists,
    two_fields,
};
use crate::demo::fault::Fault;
use polars_arrays_bits::bitmap::Bitmap;
use polars_arrays_nested::any_array::AnyArray;
use polars_arrays_numbers::steps::Steps;
use polars_compare_nested::kernels::array_tot_eq_missing_kernel_counted;
use std::alloc::{AllocError, Global};

// Appends `true` or `false` for each bit of `same`, and then `seen`, the number of comparisons.
fn push_bits(text: &mut String, same: &Bitmap, seen: u64) -> Result<(), Fault> {
    for i in 0..same.len() {
        if i > 0 {
            text.push(' ')?;
        }
        text.push_str(if same.get_bit(i) { "true" } else { "false" })?;
    }
    write!(text, "; {seen} comparisons")?;
    Ok(())
}

// Compares two arrays. Appends for each row whether the two sides are equal, and then the number of
// comparisons. The error is `Columns` if the arrays differ in type or length, or `Memory`.
fn push_same(
    alloc: Global,
    text: &mut String,
    left: &AnyArray,
    right: &AnyArray,
) -> Result<(), Fault>
    requires left { IsGood left.now }
    requires right { IsGood right.now }
{
    if !left.same_type(right) || left.len() != right.len() {
        return Err(Fault::Columns);
    }
    let mut steps = Steps::new();
    let same = array_tot_eq_missing_kernel_counted(alloc, left, right, &mut steps)?;
    let pushed = push_bits(text, &same, steps.seen());
    drop(same);
    pushed
}

// Appends the name of a pair of arrays and the result of comparing them. `left` and `right` may be
// errors of making the arrays; the first error is then returned.
fn push_answer(
    alloc: Global,
    text: &mut String,
    name: &str,
    left: Result<Box<AnyArray>, Fault>,
    right: Result<Box<AnyArray>, Fault>,
) -> Result<(), Fault>
    requires left { IfOk left (λ array. IsGood array.value) }
    requires right { IfOk right (λ array. IsGood array.value) }
{
    write!(text, "{name}: ")?;
    let left = left?;
    let right = right?;
    push_same(alloc, text, &left, &right)
}

// Appends the error in `answer`, the outcome of a comparison, if there is one. If the error is
// `Memory`, appends nothing and returns it as `AllocError`.
fn push_refusal(text: &mut String, answer: Result<(), Fault>) -> Result<(), AllocError> {
    match answer {
        Ok(()) => Ok(()),
        Err(Fault::Memory) => Err(AllocError),
        Err(fault) => write!(text, "refused: {fault}"),
    }
}

// Compares a pair of arrays, and appends a line with the name of the pair and the result or the
// error. Returns an error only if memory ran out.
fn push_case(
    alloc: Global,
    text: &mut String,
    name: &str,
    left: Result<Box<AnyArray>, Fault>,
    right: Result<Box<AnyArray>, Fault>,
) -> Result<(), AllocError>
    requires left { IfOk left (λ array. IsGood array.value) }
    requires right { IfOk right (λ array. IsGood array.value) }
{
    let answer = push_answer(alloc, text, name, left, right);
    push_refusal(text, answer)?;
    text.push('\n')
}

// Appends the lines of the pairs of structs and of lists.
fn push_lists(alloc: Global, text: &mut String) -> Result<(), AllocError> {
    push_case(
        alloc,
        text,
        "struct",
        one_field(alloc, &[1, 2]),
        one_field(alloc, &[1, 3]),
    )?;
    let (first, second) = (&[1, 3, 5], &[2, 4, 6]);
    push_case(
        alloc,
        text,
        "two fields",
        two_fields(alloc, first, second),
        two_fields(alloc, first, second),
    )?;
    push_case(
        alloc,
        text,
        "list",
        number_lists(alloc, &[0, 2, 3, 3], &[1, 2, 3]),
        number_lists(alloc, &[0, 2, 4, 4], &[1, 2, 3, 4]),
    )?;
    push_case(
        alloc,
        text,
        "width 0",
        empty_lists(alloc, &[true, false, true]),
        empty_lists(alloc, &[true, true, false]),
    )
}

// Appends the lines of the other pairs.
fn push_others(alloc: Global, text: &mut String) -> Result<(), AllocError> {
    push_case(
        alloc,
        text,
        "null child",
        null_lists(alloc, &[0, 1, 3], 3),
        null_lists(alloc, &[0, 1, 2], 2),
    )?;
    push_case(
        alloc,
        text,
        "dictionary",
        letters(alloc, &[0, 0, 1], "xy"),
        letters(alloc, &[1, 0, 1], "yx"),
    )?;
    push_case(
        alloc,
        text,
        "view",
        short_strings(alloc),
        long_strings(alloc),
    )?;
    push_case(
        alloc,
        text,
        "list of struct",
        struct_lists(alloc, &[true, true]),
        struct_lists(alloc, &[true, false]),
    )
}

/// Returns the text of the demo. Compares eight pairs of small nested arrays. The line of a pair
/// says which rows are equal and how many leaves were compared. Null is equal only to null.
pub fn demo_text(alloc: Global) -> Result<String, AllocError> {
    let mut text = String::new(alloc);
    push_lists(alloc, &mut text)?;
    push_others(alloc, &mut text)?;
    Ok(text)
}
