//! Arithmetic results, written into the caller's memory.

ghost use Rattle.std.specs.Prelude.{◌≡◌, ◌≤◌, ◌*◌, not, count_by, length, IfErr, OnErr, OnOk};
ghost use Rattle.arrow_calls.specs.declared.fault.Fault.TheVariants.{Room};
ghost use Rattle.arrow_parts.specs.Written.{AreWritten};
ghost use Rattle.dunkelva_c.specs.Arithmetic.{HasRoom};

use arrow_calls::fault::Fault;
use arrow_parts::part::Part;
use arrow_parts::written::write_bits;
use polars_arrays_bits::bitmap::Bitmap;

// Calls `$call` with the arguments `$first`, the numbers of two parts of one kind, the slice for
// results of their type, `$present` and `$nulls`. Gives the error `NotServed` if the kind has no
// numbers of 8 to 64 bits.
macro_rules! into_one_kind {
    ($left:expr, $right:expr, $i8s:expr, $i16s:expr, $i32s:expr, $i64s:expr,
        $u8s:expr, $u16s:expr, $u32s:expr, $u64s:expr,
        $call:ident($($first:expr),+), $present:expr, $nulls:expr) => {
        match PartKind::of($left.kind) {
            Some(PartKind::Int8) => {
                $call($($first,)+ $left.i8s, $right.i8s, $i8s, $present, $nulls)
            }
            Some(PartKind::Int16) => {
                $call($($first,)+ $left.i16s, $right.i16s, $i16s, $present, $nulls)
            }
            Some(PartKind::Int32) => {
                $call($($first,)+ $left.i32s, $right.i32s, $i32s, $present, $nulls)
            }
            Some(PartKind::Int64) => {
                $call($($first,)+ $left.i64s, $right.i64s, $i64s, $present, $nulls)
            }
            Some(PartKind::UInt8) => {
                $call($($first,)+ $left.u8s, $right.u8s, $u8s, $present, $nulls)
            }
            Some(PartKind::UInt16) => {
                $call($($first,)+ $left.u16s, $right.u16s, $u16s, $present, $nulls)
            }
            Some(PartKind::UInt32) => {
                $call($($first,)+ $left.u32s, $right.u32s, $u32s, $present, $nulls)
            }
            Some(PartKind::UInt64) => {
                $call($($first,)+ $left.u64s, $right.u64s, $u64s, $present, $nulls)
            }
            _ => Err(Fault::NotServed),
        }
    };
}

pub(crate) use into_one_kind;

// Calls `$call` with the arguments `$first`, the numbers of a part, the slice for results of their
// type, `$present` and `$nulls`. Gives the error `NotServed` if the part's kind has no numbers of 8
// to 64 bits.
macro_rules! into_kind {
    ($part:expr, $i8s:expr, $i16s:expr, $i32s:expr, $i64s:expr,
        $u8s:expr, $u16s:expr, $u32s:expr, $u64s:expr,
        $call:ident($($first:expr),+), $present:expr, $nulls:expr) => {
        match PartKind::of($part.kind) {
            Some(PartKind::Int8) => $call($($first,)+ $part.i8s, $i8s, $present, $nulls),
            Some(PartKind::Int16) => $call($($first,)+ $part.i16s, $i16s, $present, $nulls),
            Some(PartKind::Int32) => $call($($first,)+ $part.i32s, $i32s, $present, $nulls),
            Some(PartKind::Int64) => $call($($first,)+ $part.i64s, $i64s, $present, $nulls),
            Some(PartKind::UInt8) => $call($($first,)+ $part.u8s, $u8s, $present, $nulls),
            Some(PartKind::UInt16) => $call($($first,)+ $part.u16s, $u16s, $present, $nulls),
            Some(PartKind::UInt32) => $call($($first,)+ $part.u32s, $u32s, $present, $nulls),
            Some(PartKind::UInt64) => $call($($first,)+ $part.u64s, $u64s, $present, $nulls),
            _ => Err(Fault::NotServed),
        }
    };
}

pub(crate) use into_kind;

/// Writes the validity `bits` into `present`, and sets all later bits of `present` to 0. Sets
/// `nulls` to the number of bits that are 0.
pub(crate) fn write_present(bits: &Bitmap, present: &mut [u64], nulls: &mut u64)
    requires { length bits.now ≤ 64 * length present.old }
    ensures bits { AreWritten bits.now present.new }
    ensures count { nulls.new ≡ count_by not bits.now }
{
    match write_bits(bits, present) {
        Ok(()) => *nulls = bits.unset_bits() as u64,
        Err(_) => unreachable!(),
    }
}

/// Checks the lengths of the slices for the results of a part's rows. `values` is the length of the
/// slice for numbers, and has to be the number of rows. `words` is the length of the slice for the
/// validity, and has to suffice for a bit for each row. The only error is `Room`.
pub(crate) fn check_room(part: &Part<'_>, values: usize, words: usize) -> Result<(), Fault>
    ensures room { OnOk result (HasRoom part.now values words) }
    ensures refused { IfErr result (λ fault. fault ≡ Room) }
    ensures none { OnErr result (¬ HasRoom part.now values words) }
{
    if values != part.rows {
        return Err(Fault::Room);
    }
    if words < part.rows.div_ceil(64) {
        return Err(Fault::Room);
    }
    Ok(())
}
