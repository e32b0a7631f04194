//! Kernels of an array and a borrowed byte string or text. Their names have the prefixes `bytes_`
//! and `text_`.
//!
//! - `bytes_tot_eq_kernel_broadcast ARRAY BYTES`, and in the same form with `ne`, `lt`, `le`, `gt`
//!   or `ge` in place of `eq`: the bits, with `x` for masked rows
//! - `bytes_tot_eq_missing_kernel_broadcast ARRAY BYTES`, and in the same form with `ne`: the bits
//! - `text_tot_eq_kernel_broadcast ARRAY BYTES`, and in the same form each other call, with `text_`
//!   in place of `bytes_`: the bits for a text, which is written as its bytes

ghost use Rattle.recorded_text.specs.Cases.{HasGoodArrays};

use crate::kernel_names::{Equality, Order, Question};
use crate::named_kinds::of_kind;
use crate::operands::read_next_bytes;
use polars_arrays_flat::array::Array;
use polars_arrays_nested::any_array::AnyArray;
use polars_compare_equality::borrowed::{BytesEqKernel, TextEqKernel};
use polars_compare_order::borrowed::{BytesOrdKernel, TextOrdKernel};
use recorded_text::bits_text::write_made_present;
use recorded_text::fault::Fault;
use recorded_text::store::Store;
use recorded_text::words::Words;
use std::alloc::Global;
use std::str::from_utf8;

/// Reads the name of an array and a byte string from the next two words. Returns the text of the
/// bits that compare each row with the byte string by the kernel of `question`. The error is `Case`
/// if the kind of the array does not have this kernel.
pub fn ask_bytes(
    alloc: Global,
    question: Question,
    store: &Store,
    words: &mut Words,
) -> Result<String, Fault>
    requires { HasGoodArrays store.now }
{
    let array = store.read(words)?;
    let bytes = read_next_bytes(alloc, words)?;
    ask_strings(alloc, question, array, &bytes)
}

// Compares each row of `array` with `bytes` by the kernel of `question`, and returns the text of
// the bits. The error is `Case` if `question` is `Can`, or if the kind of the array does not have
// this kernel.
fn ask_strings(
    alloc: Global,
    question: Question,
    array: &AnyArray,
    bytes: &[u8],
) -> Result<String, Fault> {
    match question {
        Question::Can => Err(Fault::Case),
        Question::Equality(kernel) => {
            of_kind!(array, rows => equal_to_bytes(alloc, kernel, rows, bytes),
                Binary LargeBinary BinaryView FixedSizeBinary)
        }
        Question::Order(order) => {
            of_kind!(array, rows => beside_bytes(alloc, order, rows, bytes),
                Binary LargeBinary BinaryView)
        }
    }
}

// Compares each row with `bytes` by a kernel of equality, and returns the text of the bits. Bits of
// raw comparisons are shown as `x` for masked rows.
fn equal_to_bytes<A: BytesEqKernel>(
    alloc: Global,
    kernel: Equality,
    rows: &A,
    bytes: &[u8],
) -> Result<String, Fault>
    requires { A.good rows.now }
{
    let bits = match kernel {
        Equality::Equal => rows.tot_eq_kernel_broadcast(alloc, bytes),
        Equality::Unequal => rows.tot_ne_kernel_broadcast(alloc, bytes),
        Equality::EqualMissing => rows.tot_eq_missing_kernel_broadcast(alloc, bytes),
        Equality::UnequalMissing => rows.tot_ne_missing_kernel_broadcast(alloc, bytes),
    };
    kernel.write(alloc, bits, rows.validity())
}

// Compares each row with `bytes` by a kernel of order, and returns the text of the bits, with `x`
// for masked rows.
fn beside_bytes<A: BytesOrdKernel>(
    alloc: Global,
    order: Order,
    rows: &A,
    bytes: &[u8],
) -> Result<String, Fault>
    requires { A.good rows.now }
{
    let bits = match order {
        Order::Less => rows.tot_lt_kernel_broadcast(alloc, bytes),
        Order::LessOrEqual => rows.tot_le_kernel_broadcast(alloc, bytes),
        Order::Greater => rows.tot_gt_kernel_broadcast(alloc, bytes),
        Order::GreaterOrEqual => rows.tot_ge_kernel_broadcast(alloc, bytes),
    };
    write_made_present(alloc, bits, rows.validity(), None)
}

/// Reads the name of an array of texts and a text, written as bytes, from the next two words.
/// Returns the text of the bits that compare each row with this text by the kernel of `question`.
/// The error is `Word` if the bytes are not UTF-8, and `Case` if the array does not hold texts.
pub fn ask_text(
    alloc: Global,
    question: Question,
    store: &Store,
    words: &mut Words,
) -> Result<String, Fault>
    requires { HasGoodArrays store.now }
{
    let array = store.read(words)?;
    let bytes = read_next_bytes(alloc, words)?;
    match from_utf8(&bytes) {
        Ok(text) => ask_texts(alloc, question, array, text),
        Err(_) => Err(Fault::Word),
    }
}

// Compares each row of `array` with `text` by the kernel of `question`, and returns the text of the
// bits. The error is `Case` if the array does not hold texts, or if `question` is `Can`.
fn ask_texts(
    alloc: Global,
    question: Question,
    array: &AnyArray,
    text: &str,
) -> Result<String, Fault> {
    of_kind!(array, rows => ask_text_rows(alloc, question, rows, text), Utf8 LargeUtf8 Utf8View)
}

// Compares each row of `rows` with `text` by the kernel of `question`, and returns the text of the
// bits. The error is `Case` if `question` is `Can`.
fn ask_text_rows<A: TextEqKernel + TextOrdKernel>(
    alloc: Global,
    question: Question,
    rows: &A,
    text: &str,
) -> Result<String, Fault>
    requires { A.Array.good rows.now }
{
    match question {
        Question::Can => Err(Fault::Case),
        Question::Equality(kernel) => equal_to_text(alloc, kernel, rows, text),
        Question::Order(order) => beside_text(alloc, order, rows, text),
    }
}

// Compares each row with `text` by a kernel of equality, and returns the text of the bits. Bits of
// raw comparisons are shown as `x` for masked rows.
fn equal_to_text<A: TextEqKernel>(
    alloc: Global,
    kernel: Equality,
    rows: &A,
    text: &str,
) -> Result<String, Fault>
    requires { A.good rows.now }
{
    let bits = match kernel {
        Equality::Equal => rows.tot_eq_kernel_broadcast(alloc, text),
        Equality::Unequal => rows.tot_ne_kernel_broadcast(alloc, text),
        Equality::EqualMissing => rows.tot_eq_missing_kernel_broadcast(alloc, text),
        Equality::UnequalMissing => rows.tot_ne_missing_kernel_broadcast(alloc, text),
    };
    kernel.write(alloc, bits, rows.validity())
}

// Compares each row with `text` by a kernel of order, and returns the text of the bits, with `x`
// for masked rows.
fn beside_text<A: TextOrdKernel>(
    alloc: Global,
    order: Order,
    rows: &A,
    text: &str,
) -> Result<String, Fault>
    requires { A.good rows.now }
{
    let bits = match order {
        Order::Less => rows.tot_lt_kernel_broadcast(alloc, text),
        Order::LessOrEqual => rows.tot_le_kernel_broadcast(alloc, text),
        Order::Greater => rows.tot_gt_kernel_broadcast(alloc, text),
        Order::GreaterOrEqual => rows.tot_ge_kernel_broadcast(alloc, text),
    };
    write_made_present(alloc, bits, rows.validity(), None)
}
