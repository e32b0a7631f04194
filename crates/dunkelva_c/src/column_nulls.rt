//! Null rows of columns of numbers, of truth values, and of nulls alone.

ghost use Rattle.std.specs.Prelude.{◌≡◌, ◌≢◌, length, pos, IfErr, IfOk, OnErr, OnOk};
ghost use Rattle.arrow_calls.specs.Statuses.{IsTrueOf, IsTrueStatus};
ghost use Rattle.arrow_parts.specs.ByteBits.{HoldPresence};
ghost use Rattle.arrow_parts.specs.Kinds.{kind_number};
ghost use Rattle.arrow_parts.specs.Lent.{present_in};
ghost use Rattle.dunkelva_c.specs.Nulls.{AreNulls, IsTrueNullFault, IsTrueNullRoomFault};
ghost use Rattle.dunkelva_c.specs.Nulls.{masked_bits};
ghost use Rattle.dunkelva_c.specs.Nulls.{null_count_at, nulls_at};
ghost use Rattle.polars_arrays_flat.specs.Validity.{masked_count};

use arrow_calls::fault::{Fault, status};
use arrow_parts::bits::validity;
use arrow_parts::part::{Part, PartKind};
use arrow_parts::written::write_bits;
use polars_arrays_bits::bit_mask::BitMask;
use polars_arrays_bits::bitmap::Bitmap;
use polars_arrays_flat::validity::null_count;
use std::alloc::Global;

// The null rows of a column: a bit for each row, 1 if the row is null, and the number of nulls.
#[derive(Drop)]
struct Nulls {
    bits: Bitmap,
    count: usize,
}

// Returns the null rows of a part by its validity alone: a row is null if its bit is 0. Without a
// validity no row is null. Fails with `Parts` if a row's bit lies past the end of the validity, and
// with `Memory` if an allocation fails.
fn masked(alloc: Global, part: &Part<'_>) -> Result<Nulls, Fault>
    ensures bits { IfOk result (λ nulls. nulls.bits
        ≡ masked_bits part.now.rows (present_in part.now)) }
    ensures count { IfOk result (λ nulls. nulls.count ≡ masked_count (present_in part.now)) }
    ensures long { IfOk result (λ nulls. length nulls.bits ≡ part.now.rows) }
    ensures refused { IfErr result (IsTrueOf
        (HoldPresence part.now.first_bit part.now.rows part.now.present.now)) }
{
    let validity = validity(alloc, part.present, part.first_bit, part.rows)?;
    let count = null_count(&validity);
    match &validity {
        Some(bits) => {
            let bits = BitMask::from_bitmap(bits).not(alloc)?;
            Ok(Nulls { bits, count })
        }
        None => {
            let bits = Bitmap::new_zeroed(alloc, part.rows)?;
            Ok(Nulls { bits, count })
        }
    }
}

// Returns the null rows of a part. Fails with `NotServed` unless it has numbers of 8 to 64 bits,
// truth values, or nulls alone. Fails as `masked` does.
fn part_nulls(alloc: Global, part: &Part<'_>) -> Result<Nulls, Fault>
    ensures bits { IfOk result (λ nulls. nulls.bits
        ≡ nulls_at (kind_number part.now.kind) part.now) }
    ensures count { IfOk result (λ nulls. nulls.count
        ≡ null_count_at (kind_number part.now.kind) part.now) }
    ensures long { IfOk result (λ nulls. length nulls.bits ≡ part.now.rows) }
    ensures refused { IfErr result (IsTrueNullFault (kind_number part.now.kind) part.now) }
{
    match PartKind::of(part.kind) {
        Some(PartKind::Null) => {
            let bits = Bitmap::new_with_value(alloc, true, part.rows)?;
            Ok(Nulls {
                bits,
                count: part.rows,
            })
        }
        Some(PartKind::Boolean) => masked(alloc, part),
        Some(PartKind::Int8) => masked(alloc, part),
        Some(PartKind::Int16) => masked(alloc, part),
        Some(PartKind::Int32) => masked(alloc, part),
        Some(PartKind::Int64) => masked(alloc, part),
        Some(PartKind::UInt8) => masked(alloc, part),
        Some(PartKind::UInt16) => masked(alloc, part),
        Some(PartKind::UInt32) => masked(alloc, part),
        Some(PartKind::UInt64) => masked(alloc, part),
        _ => Err(Fault::NotServed),
    }
}

// Writes a bit for each row of a part into `out`, 1 if the row is null. Sets `count` to the number
// of null rows. Fails as `part_nulls` does, and with `Room` if `out` has fewer bits than rows;
// nothing is then written.
fn write_nulls(
    alloc: Global,
    part: &Part<'_>,
    out: &mut [u64],
    count: &mut u64,
) -> Result<(), Fault>
    ensures written { OnOk result (AreNulls part.now out.new count.new) }
    ensures kept { OnErr result ((out.new ≡ out.old) × (count.new ≡ count.old)) }
    ensures refused { IfErr result (IsTrueNullRoomFault (length out.old) part.now) }
{
    let nulls = part_nulls(alloc, part)?;
    write_bits(&nulls.bits, out)?;
    *count = nulls.count as u64;
    Ok(())
}

/// Writes a bit for each row of a column, 1 if the row is null, and sets all later bits of `out` to
/// 0. Writes the number of null rows into `count`. The column has numbers of 8 to 64 bits, truth
/// values, or nulls alone. Returns 0 on success. Otherwise returns the status of a `Fault`, and
/// nothing is written.
#[unsafe(no_mangle)]
pub extern "C" fn dunkelva_part_is_null(
    alloc: Global,
    part: &Part<'_>,
    out: &mut [u64],
    count: &mut u64,
) -> i32
    ensures written { result ≡ pos 0 → AreNulls part.now out.new count.new }
    ensures kept { result ≢ pos 0 → (out.new ≡ out.old) × (count.new ≡ count.old) }
    ensures refused { IsTrueStatus (IsTrueNullRoomFault (length out.old) part.now) result }
{
    match write_nulls(alloc, part, out, count) {
        Ok(()) => 0,
        Err(fault) => status(fault),
    }
}
