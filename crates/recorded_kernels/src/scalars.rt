//! Kernels of an array and an owned scalar: a number, a truth value, the bytes of a string or of a
//! text, or the name of an array. For an array of lists, the rows of the named array are the items
//! of one list.
//!
//! - `can_broadcast A SCALAR`: a truth value, whether a kernel of equality can be called
//! - `tot_eq_kernel_broadcast A SCALAR`, and in the same form with `ne`, `lt`, `le`, `gt` or `ge`
//!   in place of `eq`: the bits, with `x` for masked rows
//! - `tot_eq_missing_kernel_broadcast A SCALAR`, and in the same form with `ne`: the bits
//!
//! Arrays of nulls, structs or dictionary entries have no broadcasts. For them, a kernel of
//! equality gives `refused: not supported`, although `can_broadcast` gives `true`.

ghost use Rattle.polars_arrays_nested.specs.GoodParts.{IsGood};
ghost use Rattle.recorded_text.specs.Cases.{HasGoodArrays};

use crate::kernel_names::{Equality, Order, Question};
use crate::named_kinds::of_kind;
use crate::operands::{read_next_bytes, read_truth, write_truth};
use crate::stored_numbers::{Asked, ask_next};
use polars_arrays_bits::error::ComputeError;
use polars_arrays_flat::array::Array;
use polars_arrays_nested::any_array::AnyArray;
use polars_compare_equality::kernel::TotalEqKernel;
use polars_compare_order::kernel::TotalOrdKernel;
use recorded_text::bits_text::write_made_present;
use recorded_text::fault::Fault;
use recorded_text::store::Store;
use recorded_text::words::Words;
use std::alloc::Global;
use std::str::from_utf8;

/// Reads the name of an array and a scalar from the next two words, and returns the text of the
/// answer to `question` about them. The kind of the array decides how the scalar is written or
/// named. The error is `Case` if the kind does not have the kernel, or if `can_broadcast` returns
/// `false` for a kernel of equality.
pub fn ask(
    alloc: Global,
    question: Question,
    store: &Store,
    words: &mut Words,
) -> Result<String, Fault>
    requires { HasGoodArrays store.now }
{
    let array = store.read(words)?;
    match array {
        AnyArray::Boolean(rows) => ask_scalar(alloc, question, rows, &read_truth(words)?),
        AnyArray::Binary(_)
        | AnyArray::LargeBinary(_)
        | AnyArray::BinaryView(_)
        | AnyArray::FixedSizeBinary(_) => ask_bytes(alloc, question, array, words),
        AnyArray::Utf8(_) | AnyArray::LargeUtf8(_) | AnyArray::Utf8View(_) => {
            ask_text(alloc, question, array, words)
        }
        AnyArray::Null(_)
        | AnyArray::List(_)
        | AnyArray::FixedSizeList(_)
        | AnyArray::Struct(_)
        | AnyArray::Dictionary(_) => ask_array(alloc, question, array, store.read(words)?),
        _ => ask_next(alloc, Asked::Scalar(question), array, words),
    }
}

// Reads a byte string, and returns the text of the answer to `question` about `array` and this
// scalar. The error is `Case` if the kernel does not exist for the kind of the array.
fn ask_bytes(
    alloc: Global,
    question: Question,
    array: &AnyArray,
    words: &mut Words,
) -> Result<String, Fault> {
    let bytes = read_next_bytes(alloc, words)?;
    match array {
        AnyArray::Binary(rows) => ask_scalar(alloc, question, rows, &bytes),
        AnyArray::LargeBinary(rows) => ask_scalar(alloc, question, rows, &bytes),
        AnyArray::BinaryView(rows) => ask_scalar(alloc, question, rows, &bytes),
        AnyArray::FixedSizeBinary(rows) => ask_equality(alloc, question, rows, &bytes),
        _ => Err(Fault::Case),
    }
}

// Reads a text, and returns the text of the answer to `question` about `array` and this scalar. The
// error is `Case` if `array` does not hold texts.
fn ask_text(
    alloc: Global,
    question: Question,
    array: &AnyArray,
    words: &mut Words,
) -> Result<String, Fault> {
    let text = read_text(alloc, words)?;
    of_kind!(array, rows => ask_scalar(alloc, question, rows, &text), Utf8 LargeUtf8 Utf8View)
}

// Reads a text, written as bytes, from the next word. The error is `Word` if it is not UTF-8.
fn read_text(alloc: Global, words: &mut Words) -> Result<String, Fault> {
    let bytes = read_next_bytes(alloc, words)?;
    match from_utf8(&bytes) {
        Ok(text) => Ok(text.to_string(alloc)?),
        Err(_) => Err(Fault::Word),
    }
}

// Returns the text of the answer to `question` about `array`, which has lists, structs, dictionary
// entries or nulls as rows, and `scalar`. The error is `Case` if `array` is of another kind, or as
// in `ask_equality`.
fn ask_array(
    alloc: Global,
    question: Question,
    array: &AnyArray,
    scalar: &AnyArray,
) -> Result<String, Fault>
    requires good { IsGood array.now }
    requires good_scalar { IsGood scalar.now }
{
    of_kind!(array, rows => ask_equality(alloc, question, rows, scalar),
        Null List FixedSizeList Struct Dictionary)
}

/// Returns the text of the answer to `question` about `rows`, which have an order, and `scalar`.
/// The error is `Case` for a kernel of equality if `can_broadcast` returns `false`.
pub fn ask_scalar<S, A: TotalEqKernel<Scalar = S> + TotalOrdKernel<Scalar = S>>(
    alloc: Global,
    question: Question,
    rows: &A,
    scalar: &S,
) -> Result<String, Fault>
    requires good { A.Array.good rows.now }
    requires good_scalar { A.TotalEqKernel.good_scalar scalar.now }
{
    match question {
        Question::Order(order) => ordered(alloc, order, rows, scalar),
        question => ask_equality(alloc, question, rows, scalar),
    }
}

// Returns the text of the answer to `question` about `rows` and `scalar`. The error is `Case` if
// `question` is a kernel of order, or if it is a kernel of equality and `can_broadcast` returns
// `false`.
fn ask_equality<A: TotalEqKernel>(
    alloc: Global,
    question: Question,
    rows: &A,
    scalar: &A::Scalar,
) -> Result<String, Fault>
    requires good { A.good rows.now }
    requires good_scalar { A.good_scalar scalar.now }
{
    let can = rows.can_broadcast(scalar);
    match question {
        Question::Can => write_truth(alloc, can),
        Question::Equality(kernel) if can => where_equal(alloc, kernel, rows, scalar),
        _ => Err(Fault::Case),
    }
}

// Compares each row with `scalar` by a kernel of equality. Returns the text of the bits, or
// `refused: WHY` if the kernel returns an error other than a failed allocation.
fn where_equal<A: TotalEqKernel>(
    alloc: Global,
    kernel: Equality,
    rows: &A,
    scalar: &A::Scalar,
) -> Result<String, Fault>
    requires good { A.good rows.now }
    requires good_scalar { A.good_scalar scalar.now }
    requires fits { A.fits rows.now scalar.now }
{
    let bits = match kernel {
        Equality::Equal => rows.tot_eq_kernel_broadcast(alloc, scalar),
        Equality::Unequal => rows.tot_ne_kernel_broadcast(alloc, scalar),
        Equality::EqualMissing => rows.tot_eq_missing_kernel_broadcast(alloc, scalar),
        Equality::UnequalMissing => rows.tot_ne_missing_kernel_broadcast(alloc, scalar),
    };
    match bits {
        Err(refused) => why_refused(alloc, refused),
        bits => kernel.write(alloc, bits, rows.validity()),
    }
}

// Returns the text `refused: WHY` for the error `refused` of a kernel. If it is a failed
// allocation, the error is `Memory`.
fn why_refused(alloc: Global, refused: ComputeError) -> Result<String, Fault> {
    match refused {
        ComputeError::Memory(_) => Err(Fault::Memory),
        refused => Ok(format!(in alloc; "refused: {refused}")?),
    }
}

// Compares each row with `scalar` by a kernel of order, and returns the text of the bits, with `x`
// for masked rows.
fn ordered<A: TotalOrdKernel>(
    alloc: Global,
    order: Order,
    rows: &A,
    scalar: &A::Scalar,
) -> Result<String, Fault>
    requires { A.good rows.now }
{
    let bits = match order {
        Order::Less => rows.tot_lt_kernel_broadcast(alloc, scalar),
        Order::LessOrEqual => rows.tot_le_kernel_broadcast(alloc, scalar),
        Order::Greater => rows.tot_gt_kernel_broadcast(alloc, scalar),
        Order::GreaterOrEqual => rows.tot_ge_kernel_broadcast(alloc, scalar),
    };
    write_made_present(alloc, bits, rows.validity(), None)
}
