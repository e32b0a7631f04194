//! Kernels for arrays of any type: equality, and null rows.

ghost use Rattle.std.specs.Prelude.{◌≡◌, ◌≢◌, length, pos};
ghost use Rattle.arrow_arrays.specs.Good.{AreGoodParts};
ghost use Rattle.arrow_calls.specs.Statuses.{IsTrueStatus};
ghost use Rattle.arrow_equality.specs.Equal.{AreEqualIn, IsCountIn};
ghost use Rattle.arrow_equality.specs.Nulls.{AreNullIn};
ghost use Rattle.dunkelva_c.specs.Trees.{IsTrueNullRowsFault, IsTrueTreeFault};

use arrow_calls::fault::{Fault, status};
use arrow_equality::equal::equal_rows;
use arrow_equality::nulls::null_rows;
use arrow_parts::part::Part;
use std::alloc::Global;

/// Compares two arrays, each a tree of parts in pre-order, row by row. Sets bit `i` of `out` if the
/// two rows `i` are equal as trees, and sets all bits past the last row to 0. Null is equal to null
/// alone. Sets `comparisons[0]` to the number of leaves that were compared: at most one for each
/// leaf slot of the left array, and at most `u64::MAX`. Two types count as equal also if they
/// differ only in the width of offsets, or in whether strings are stored as views.
///
/// Returns 0 on success. Otherwise returns another status, and both slices are unchanged. The
/// status is 1 if the parts on a side make no array, 2 if the arrays differ in type or in length, 3
/// if `out` has fewer bits than rows or `comparisons` is empty, and 4 if an allocation fails.
///
/// The contract states this for the parts: the bits (`same`), the number (`count`) and the parts
/// (`good`) if the result is 0, and that nothing is written otherwise (`kept`, `count_kept`). Each
/// other status is returned only if its reason is true (`refused`), but for status 4 nothing is
/// promised.
#[tactic(auto, using(crate::proofs::TreeFaults::trees))]
#[unsafe(no_mangle)]
pub extern "C" fn dunkelva_parts_equal(
    alloc: Global,
    left: &[Part<'_>],
    right: &[Part<'_>],
    out: &mut [u64],
    comparisons: &mut [u64],
) -> i32
    ensures same { result ≡ pos 0 → AreEqualIn left.now right.now out.new }
    ensures count { result ≡ pos 0 → IsCountIn left.now right.now comparisons.new }
    ensures good { result ≡ pos 0 → AreGoodParts left.now × AreGoodParts right.now }
    ensures kept { result ≢ pos 0 → out.new ≡ out.old }
    ensures count_kept { result ≢ pos 0 → comparisons.new ≡ comparisons.old }
    ensures refused { IsTrueStatus
        (IsTrueTreeFault left.now right.now out.old comparisons.old) result }
{
    match equal_rows(alloc, left, right, out, comparisons) {
        Ok(()) => 0,
        Err(refused) => status(Fault::from(refused)),
    }
}

/// Sets bit `i` of `out` to 1 if row `i` of an array is null, and sets all other bits to 0. Sets
/// `count` to the number of null rows. `parts` has the lent arrays of which the array consists, in
/// pre-order. A row of a dictionary is null if its key is null, or if the entry of the key is null.
///
/// Returns 0 on success. Otherwise returns another status, and nothing is written. The status is 1
/// if the parts make no array, 3 if `out` has fewer bits than rows, and 4 if an allocation fails.
#[tactic(auto, using(crate::proofs::TreeFaults::nulls))]
#[unsafe(no_mangle)]
pub extern "C" fn dunkelva_parts_are_null(
    alloc: Global,
    parts: &[Part<'_>],
    out: &mut [u64],
    count: &mut u64,
) -> i32
    ensures written { result ≡ pos 0 → AreNullIn parts.now out.new count.new }
    ensures good { result ≡ pos 0 → AreGoodParts parts.now }
    ensures kept { result ≢ pos 0 → out.new ≡ out.old }
    ensures count_kept { result ≢ pos 0 → count.new ≡ count.old }
    ensures refused { IsTrueStatus (IsTrueNullRowsFault (length out.old) parts.now) result }
{
    match null_rows(alloc, parts, out, count) {
        Ok(()) => 0,
        Err(refused) => status(Fault::from(refused)),
    }
}
