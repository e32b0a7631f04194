//! The kernels as a static library, for `bench/` to time beside plain Rust.
//!
//! There is one entry point for each shape of operands. Its parameters are first the slices from
//! which the operands are made, and a scalar where kernels need one. Then come the number of the
//! kernel and, if operands can have several types, the number of the type. These numbers are
//! discriminants of enums such as `NumberKernel` and `NumberType`.
//!
//! An entry point creates its operands once, runs the kernel `repeats` times, and returns a
//! checksum of one number from each run, such as a bit of the result or a count. It returns 0 if
//! there is no such kernel or type, if the operands cannot be created, or if an operation of
//! `arithmetic` fails. With `repeats` 0 it only creates the operands, and returns 0.
#![tactic(auto)]

/// Evaluates the expression `$said` with `$chosen` bound to the entry of the enum `$entries` whose
/// discriminant is `$number`, or `$otherwise` if no listed entry has it. The expression is compiled
/// once for each entry, so that a loop in it has its kernel chosen before it begins.
macro_rules! by_number {
    ($number:expr, $entries:ident: $($entry:ident)*, |$chosen:ident| $said:expr, $otherwise:expr) =>
        {
        match $number {
            $(number if number == $entries::$entry as u32 => {
                let $chosen = $entries::$entry;
                $said
            })*
            _ => $otherwise,
        }
    };
}

/// Calls the function `$called` for the type of numbers with the number `$number` in `NumberType`,
/// and returns its result. The result is `Ok(0)` if this is not `I8`, `I32`, `I64` or `I128`.
macro_rules! at_number_type {
    ($number:expr, $called:ident $arguments:tt) => {
        at_type!(
            $number,
            NumberType: I8 = i8, I32 = i32, I64 = i64, I128 = i128;
            $called $arguments
        )
    };
}

/// Calls the function `$called` for the integer type with the number `$number` in `NumberType`, and
/// returns its result. The result is `Ok(0)` if there is no such type, or if it is `I128`.
macro_rules! at_integer_type {
    ($number:expr, $called:ident $arguments:tt) => {
        at_type!(
            $number,
            NumberType: I8 = i8, I16 = i16, I32 = i32, I64 = i64, U8 = u8, U16 = u16, U32 = u32,
                U64 = u64;
            $called $arguments
        )
    };
}

/// Calls the function `$called` for the type that is listed for the entry of `$entries` with the
/// number `$number`, and returns its result. The result is `Ok(0)` if no listed entry has this
/// number.
macro_rules! at_type {
    ($number:expr, $entries:ident: $($entry:ident = $type:ty),*; $called:ident $arguments:tt) => {
        match $number {
            $(number if number == $entries::$entry as u32 => $called::<$type> $arguments,)*
            _ => Ok(0),
        }
    };
}

mod arithmetic;
mod bitmaps;
mod booleans;
mod columns;
mod nested;
mod nested_operands;
mod numbers;
mod operands;
mod reductions;
mod slices;
mod states;
mod string_operands;
mod strings;

use polars_arrays_bits::bitmap::Bitmap;
use polars_arrays_bits::error::ComputeError;
use std::alloc::Global;

/// The number that stands for a missing result: a bit that a bitmap does not have, or a truth value
/// or string that a kernel did not find.
const NO_BIT: u64 = 2;

/// The number that stands for the result of a kernel that failed, or that does not exist for the
/// type of the operands.
const NO_BITMAP: u64 = 3;

// Returns bit `i` of the bitmap `made` as 0 or 1. Returns `NO_BIT` if there is no such bit, and
// `NO_BITMAP` if `made` is an error.
#[inline(always)]
pub(crate) fn bit_of(made: Result<Bitmap, ComputeError>, i: usize) -> u64 {
    match made {
        Ok(bits) => match bits.get(i) {
            Some(bit) => u64::from(bit),
            None => NO_BIT,
        },
        Err(_) => NO_BITMAP,
    }
}

/// Operands of one shape, on which kernels are timed.
pub(crate) trait Timed {
    /// The type of kernels that run on these operands.
    type Kernel: Copy;

    /// Runs `kernel` once, and returns a number from its result: bit or row `i`, or if the result
    /// is a single value, a number for this value.
    fn run(&self, alloc: Global, kernel: Self::Kernel, i: usize) -> u64;
}

// Runs `kernel` `repeats` times, on the operands `first` and `second` in turn, and returns a
// checksum of the numbers that the runs return. The runs on each of the two ask for bit 0 of the
// result, then for bit 1, and so on (parameter `i` of `Timed::run`). Inlined for one kernel, the
// loop has no choice of a kernel in it.
#[inline(always)]
pub(crate) fn repeat<X: Timed>(
    alloc: Global,
    kernel: X::Kernel,
    (first, second): (&X, &X),
    repeats: usize,
) -> u64 {
    let mut checksum: u64 = 0;
    for round in 0..repeats {
        let operands = if round % 2 == 0 { first } else { second };
        let number = operands.run(alloc, kernel, round / 2);
        checksum = checksum.wrapping_mul(31).wrapping_add(number);
    }
    checksum
}
