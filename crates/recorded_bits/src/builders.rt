//! Calls on bitmap builders.
//!
//! A call is `builder N OPERATION..`. It creates a builder with room for N bits, and applies the
//! operations to it. The last operation is `freeze`. The call returns the results of the operations
//! in order. These are the operations and their results:
//!
//! - `push VALUE`: no result; pushes the bit VALUE, which is `true` or `false`
//! - `fill N VALUE`: no result; pushes N bits that are all VALUE
//! - `values X`, `wide_values X`: no result; pushes the bits of X, which are read one by one. With
//!   `wide_values`, they are packed like the results of comparisons of wide elements (see
//!   `SingleBits`)
//! - `len`: the number of bits
//! - `room N`: whether N more bits fit
//! - `fallen`: the decrease of the room since the builder was created
//! - `freeze`: all bits

use crate::answer_text::{Told, write_told};
use crate::bits::{read_bitmap, read_truth};
use crate::truth_values::SingleBits;
use polars_arrays_bits::bitmap::Bitmap;
use polars_arrays_bits::builder::BitmapBuilder;
use recorded_text::fault::Fault;
use recorded_text::names::find_word;
use recorded_text::words::Words;
use std::alloc::Global;

// An operation on a builder, as listed at the top of this file.
#[derive(Clone, Copy)]
enum Operation {
    Push,
    Fill,
    Values,
    WideValues,
    Len,
    Room,
    Fallen,
}

// The operations by name.
const OPERATIONS: [(&str, Operation); 7] = [
    ("push", Operation::Push),
    ("fill", Operation::Fill),
    ("values", Operation::Values),
    ("wide_values", Operation::WideValues),
    ("len", Operation::Len),
    ("room", Operation::Room),
    ("fallen", Operation::Fallen),
];

/// Reads the capacity of a builder from the next word, applies the operations after it, up to
/// `freeze`, and returns their results. The last result is the text of all bits. The error is
/// `Word` for wrong or missing words, `Case` if there is no room for the bits of an operation, or
/// `Memory`.
pub fn operate(alloc: Global, words: &mut Words) -> Result<String, Fault> {
    let mut builder = read_builder(alloc, words)?;
    let told = tell(alloc, &mut builder, words);
    write_told(alloc, told, &builder.freeze())
}

// Reads a number of bits from the next word, and creates an empty builder with room for that many.
fn read_builder(alloc: Global, words: &mut Words) -> Result<BitmapBuilder, Fault> {
    BitmapBuilder::with_capacity(alloc, words.read_number()?).map_err(Fault::from)
}

// Reads operations up to `freeze`, applies them to `builder`, and returns their results. `freeze`
// itself is not applied.
fn tell(alloc: Global, builder: &mut BitmapBuilder, words: &mut Words) -> Result<Told, Fault> {
    let mut told = Told::new(alloc);
    apply_all(alloc, builder, words, &mut told)?;
    Ok(told)
}

// Reads operations up to `freeze`, applies them to `builder`, and appends their results to `told`.
// `freeze` itself is not applied.
fn apply_all(
    alloc: Global,
    builder: &mut BitmapBuilder,
    words: &mut Words,
    told: &mut Told,
) -> Result<(), Fault> {
    let room = builder.room();
    for _ in 0..u64::MAX {
        match words.read()? {
            "freeze" => break,
            word => apply(
                alloc,
                builder,
                room,
                find_word(&OPERATIONS, word),
                words,
                told,
            )?,
        }
    }
    Ok(())
}

// Applies an operation to `builder`, and appends its result, if it has one, to `told`. `room` is
// the room of the builder before the first operation. The operands are read from `words`. If
// `operation` is an error, returns it. The error is `Case` if there is not enough room for bits.
fn apply(
    alloc: Global,
    builder: &mut BitmapBuilder,
    room: usize,
    operation: Result<Operation, Fault>,
    words: &mut Words,
    told: &mut Told,
) -> Result<(), Fault> {
    match operation? {
        Operation::Push => push_truth(builder, read_truth(words)),
        Operation::Fill => fill_read(builder, words),
        Operation::Values => push_read(builder, read_bitmap(alloc, words), false),
        Operation::WideValues => push_read(builder, read_bitmap(alloc, words), true),
        Operation::Len => told.add_value(alloc, builder.len()),
        Operation::Room => tell_room(alloc, builder, words.read_number(), told),
        Operation::Fallen => told.add_value(alloc, room.saturating_sub(builder.room())),
    }
}

// Appends to `told` whether `n` more bits fit in the builder. If `n` is an error, returns it.
fn tell_room(
    alloc: Global,
    builder: &BitmapBuilder,
    n: Result<usize, Fault>,
    told: &mut Told,
) -> Result<(), Fault> {
    told.add_value(alloc, n? <= builder.room())
}

// Pushes the bit `value`. If `value` is an error, returns it. The error is `Case` if there is no
// room.
fn push_truth(builder: &mut BitmapBuilder, value: Result<bool, Fault>) -> Result<(), Fault> {
    push(builder, value?)
}

// Reads a number and a truth value from the next words, and pushes that many bits of this value.
// The error is `Case` if there is not enough room.
fn fill_read(builder: &mut BitmapBuilder, words: &mut Words) -> Result<(), Fault> {
    let n = words.read_number()?;
    fill(builder, n, read_truth(words)?)
}

// Pushes the bits in `bits`, which the builder reads one by one. `wide` says how they are packed
// (see `SingleBits`). If `bits` is an error, returns it. The error is `Case` if there is not enough
// room.
fn push_read(
    builder: &mut BitmapBuilder,
    bits: Result<Bitmap, Fault>,
    wide: bool,
) -> Result<(), Fault> {
    push_all(builder, &bits?, wide)
}

/// Pushes the bit `value`. The error is `Case` if there is no room.
pub fn push(builder: &mut BitmapBuilder, value: bool) -> Result<(), Fault> {
    if builder.room() == 0 {
        return Err(Fault::Case);
    }
    builder.push_reserved(value);
    Ok(())
}

/// Pushes `n` bits that are all `value`. The error is `Case` if there is not enough room, and then
/// no bit is pushed.
pub fn fill(builder: &mut BitmapBuilder, n: usize, value: bool) -> Result<(), Fault> {
    if builder.room() < n {
        return Err(Fault::Case);
    }
    builder.extend_constant(n, value);
    Ok(())
}

/// Pushes the bits of a bitmap, which the builder reads one by one. `wide` says how they are packed
/// (see `SingleBits`). The error is `Case` if there is not enough room, and then no bit is pushed.
pub fn push_all(builder: &mut BitmapBuilder, bits: &Bitmap, wide: bool) -> Result<(), Fault> {
    if builder.room() < bits.len() {
        return Err(Fault::Case);
    }
    builder.extend_values(&SingleBits { bits, wide });
    Ok(())
}
