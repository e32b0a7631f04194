//! Kernels of two arrays of one kind.
//!
//! - `can_compare A B`: a truth value, whether the kernels of equality can be called on A and B
//! - `tot_eq_kernel A B`, and in the same form with `ne`, `lt`, `le`, `gt` or `ge` in place of
//!   `eq`: the bits, with `x` where a row of A or B is masked
//! - `tot_eq_missing_kernel A B`, `tot_ne_missing_kernel A B`: the bits

ghost use Rattle.polars_arrays_nested.specs.GoodParts.{IsGood};
ghost use Rattle.recorded_text.specs.Cases.{HasGoodArrays};

use crate::kernel_names::{Equality, Order, Question};
use crate::named_kinds::of_one_kind;
use crate::operands::{read_two, write_truth};
use crate::raw_bits::write_raw;
use crate::stored_numbers::{AskedBoth, ask_both};
use polars_arrays_flat::array::Array;
use polars_arrays_nested::any_array::AnyArray;
use polars_compare_equality::kernel::TotalEqKernel;
use polars_compare_order::kernel::TotalOrdKernel;
use recorded_text::bits_text::{write_made, write_made_present};
use recorded_text::fault::Fault;
use recorded_text::store::Store;
use recorded_text::words::Words;
use std::alloc::Global;

/// Reads the names of two arrays of one kind, and returns the text of the answer to `question`
/// about their rows. The error is `Case` if the kinds differ, or if the kernel can't be called.
pub fn ask(
    alloc: Global,
    question: Question,
    store: &Store,
    words: &mut Words,
) -> Result<String, Fault>
    requires { HasGoodArrays store.now }
{
    let (these, those) = read_two(store, words)?;
    ask_kinds(alloc, question, these, those)
}

// Returns the text of the answer to `question` about the rows of two arrays. The error is `Case` if
// their kinds differ, or if the kernel can't be called on these arrays.
fn ask_kinds(
    alloc: Global,
    question: Question,
    these: &AnyArray,
    those: &AnyArray,
) -> Result<String, Fault>
    requires good_left { IsGood these.now }
    requires good_right { IsGood those.now }
{
    of_one_kind!(these, those, left, right => equal_rows(alloc, question, left, right),
        Null FixedSizeBinary List FixedSizeList Struct Dictionary,
        _ => ask_ordered_kinds(alloc, question, these, those))
}

// Returns the answer to a question about the rows of two arrays of a kind that has an order. Fails
// with `Case` if the kinds differ, or if the kernel can't be called on these arrays.
fn ask_ordered_kinds(
    alloc: Global,
    question: Question,
    these: &AnyArray,
    those: &AnyArray,
) -> Result<String, Fault> {
    of_one_kind!(these, those, left, right => ask_rows(alloc, question, left, right),
        Boolean Binary LargeBinary Utf8 LargeUtf8 BinaryView Utf8View,
        _ => ask_both(alloc, AskedBoth::Rows(question), these, those))
}

/// Returns the text of the answer to `question` about the rows of two arrays of a kind that has an
/// order. The error is `Case` if the kernel can't be called on these arrays.
pub fn ask_rows<A: TotalEqKernel + TotalOrdKernel>(
    alloc: Global,
    question: Question,
    left: &A,
    right: &A,
) -> Result<String, Fault>
    requires good_left { A.Array.good left.now }
    requires good_right { A.Array.good right.now }
{
    match question {
        Question::Order(order) => ordered_rows(alloc, order, left, right),
        question => equal_rows(alloc, question, left, right),
    }
}

// Returns the text of the answer to `question` about the rows of two arrays. The error is `Case` if
// `question` is a kernel of order, or if it is a kernel of equality and the arrays can't be
// compared (`can_compare`).
fn equal_rows<A: TotalEqKernel>(
    alloc: Global,
    question: Question,
    left: &A,
    right: &A,
) -> Result<String, Fault>
    requires good_left { A.good left.now }
    requires good_right { A.good right.now }
{
    let can = left.can_compare(right);
    match question {
        Question::Can => write_truth(alloc, can),
        Question::Equality(kernel) if can => where_equal(alloc, kernel, left, right),
        _ => Err(Fault::Case),
    }
}

// Compares the rows by a kernel of equality, and returns the text of the bits. Bits of raw
// comparisons are shown as `x` where either row is masked.
fn where_equal<A: TotalEqKernel>(
    alloc: Global,
    kernel: Equality,
    left: &A,
    right: &A,
) -> Result<String, Fault>
    requires good_left { A.good left.now }
    requires good_right { A.good right.now }
    requires comparable { A.comparable left.now right.now }
{
    let raw = match kernel {
        Equality::Equal => left.tot_eq_kernel(alloc, right),
        Equality::Unequal => left.tot_ne_kernel(alloc, right),
        Equality::EqualMissing => {
            return write_made(alloc, left.tot_eq_missing_kernel(alloc, right));
        }
        Equality::UnequalMissing => {
            return write_made(alloc, left.tot_ne_missing_kernel(alloc, right));
        }
    };
    write_raw(
        alloc,
        &raw?,
        left.missing_mask(alloc),
        right.missing_mask(alloc),
    )
}

// Compares the rows by a kernel of order, and returns the text of the bits, with `x` where either
// row is null. The error is `Case` if the lengths differ.
fn ordered_rows<A: TotalOrdKernel>(
    alloc: Global,
    order: Order,
    left: &A,
    right: &A,
) -> Result<String, Fault>
    requires good_left { A.good left.now }
    requires good_right { A.good right.now }
{
    if left.len() != right.len() {
        return Err(Fault::Case);
    }
    let bits = match order {
        Order::Less => left.tot_lt_kernel(alloc, right),
        Order::LessOrEqual => left.tot_le_kernel(alloc, right),
        Order::Greater => left.tot_gt_kernel(alloc, right),
        Order::GreaterOrEqual => left.tot_ge_kernel(alloc, right),
    };
    write_made_present(alloc, bits, left.validity(), right.validity())
}
