//! Missing equality of two whole arrays of any kind, of one type and length.

ghost use Rattle.std.specs.Prelude.{◌≡◌, ◌+◌, ◌≤◌, true, false, IfOk, MatchResult};
ghost use Rattle.polars_arrays_bits.specs.Errors.{IsMemory};
ghost use Rattle.polars_arrays_nested.specs.AnyRows.{rows};
ghost use Rattle.polars_arrays_nested.specs.GoodParts.{IsGood};
ghost use Rattle.polars_arrays_nested.specs.Leaves.{leaves};
ghost use Rattle.polars_arrays_nested.specs.Lengths.{len_of};
ghost use Rattle.polars_arrays_nested.specs.Types.{type_of};
ghost use Rattle.polars_compare_leaves.specs.Equality.{MissingEquality};
ghost use Rattle.polars_compare_nested.specs.Headline.{IsEquality, SameRows, SameTrees};
ghost use Rattle.polars_compare_nested.specs.Tally.{tally};

use crate::leaf_kernel::LeafKernel;
use crate::windows::equal_windows;
use polars_arrays_bits::bitmap::Bitmap;
use polars_arrays_bits::error::ComputeError;
use polars_arrays_nested::any_array::AnyArray;
use polars_arrays_numbers::steps::Steps;
use std::alloc::Global;

/// Returns a bit for each index `i`: 1 if row `i` of `left` and row `i` of `right` are the same.
/// Both arrays have the same type and length. Null is the same as null alone. Two leaves are the
/// same if `steps` says so. `steps` is any `LeafKernel`, for example the counter `Steps`, which
/// compares leaves by equality and counts the leaves compared.
///
/// If `steps` compares leaves by equality, as `Steps` does, a bit is 1 exactly if the two rows are
/// the same tree.
///
/// On `Ok`, the count of `steps` has increased by one for each comparison of two leaves. That is at
/// most the number of leaf slots of either array, where the leaves of a dictionary's entry count
/// once for each non-null key that refers to it. The error is `Memory`; the count may have
/// increased by then.
#[tactic(auto, using(crate::proofs::Headline::bounds))]
pub fn array_tot_eq_missing_kernel_counted<K: LeafKernel>(
    alloc: Global,
    left: &AnyArray,
    right: &AnyArray,
    steps: &mut K,
) -> Result<Bitmap, ComputeError>
    requires left_good { IsGood left.now }
    requires right_good { IsGood right.now }
    requires one_type { type_of left.now ≡ type_of right.now }
    requires one_length { len_of left.now ≡ len_of right.now }
    ensures told { MatchResult result (SameRows true K.agree left.now right.now) IsMemory }
    ensures trees { IsEquality K.agree
        → MatchResult result (SameTrees true left.now right.now) IsMemory }
    ensures counted { IfOk result
        (λ _. K.count steps.new
        ≡ K.count steps.old + tally left.now right.now 0 0 (len_of left.now)) }
    ensures within_left { tally left.now right.now 0 0 (len_of left.now) ≤ leaves left.now 0
        (len_of left.now) }
    ensures within_right { tally left.now right.now 0 0 (len_of left.now) ≤ leaves right.now 0
        (len_of right.now) }
    ensures kept { K.count steps.old ≤ K.count steps.new }
{
    equal_windows(alloc, left, 0, right, 0, left.len(), steps)
}

/// Returns a bit for each index `i`: 1 if row `i` of `left` and row `i` of `right` differ. Both
/// arrays have the same type and length. This is the complement of the result of
/// `array_tot_eq_missing_kernel_counted`. `steps` compares and counts the same leaves as there. The
/// error is `Memory`; the count may have increased by then.
#[tactic(auto, using(crate::proofs::Headline::bounds))]
pub fn array_tot_ne_missing_kernel_counted<K: LeafKernel>(
    alloc: Global,
    left: &AnyArray,
    right: &AnyArray,
    steps: &mut K,
) -> Result<Bitmap, ComputeError>
    requires left_good { IsGood left.now }
    requires right_good { IsGood right.now }
    requires one_type { type_of left.now ≡ type_of right.now }
    requires one_length { len_of left.now ≡ len_of right.now }
    ensures told { MatchResult result (SameRows false K.agree left.now right.now) IsMemory }
    ensures trees { IsEquality K.agree
        → MatchResult result (SameTrees false left.now right.now) IsMemory }
    ensures counted { IfOk result
        (λ _. K.count steps.new
        ≡ K.count steps.old + tally left.now right.now 0 0 (len_of left.now)) }
    ensures within_left { tally left.now right.now 0 0 (len_of left.now) ≤ leaves left.now 0
        (len_of left.now) }
    ensures within_right { tally left.now right.now 0 0 (len_of left.now) ≤ leaves right.now 0
        (len_of right.now) }
    ensures kept { K.count steps.old ≤ K.count steps.new }
{
    let same = equal_windows(alloc, left, 0, right, 0, left.len(), steps)?;
    same.not(alloc)
}

/// Returns a bit for each index `i`: 1 if row `i` of `left` and row `i` of `right` are the same
/// tree. Both arrays have the same type and length. Null is the same as null alone. `steps` counts
/// the comparisons of leaves.
///
/// On `Ok`, the count has increased by one for each comparison of two leaves. That is at most the
/// number of leaf slots of either array, where the leaves of a dictionary's entry count once for
/// each non-null key that refers to it. The error is `Memory`; the count may have increased by
/// then.
#[tactic(auto, using(crate::proofs::Headline::bounds))]
pub fn array_tot_eq_missing_kernel_with_steps(
    alloc: Global,
    left: &AnyArray,
    right: &AnyArray,
    steps: &mut Steps,
) -> Result<Bitmap, ComputeError>
    requires left_good { IsGood left.now }
    requires right_good { IsGood right.now }
    requires one_type { type_of left.now ≡ type_of right.now }
    requires one_length { len_of left.now ≡ len_of right.now }
    ensures trees { MatchResult result (SameTrees true left.now right.now) IsMemory }
    ensures counted { IfOk result
        (λ _. steps.new ≡ steps.old + tally left.now right.now 0 0 (len_of left.now)) }
    ensures within_left { tally left.now right.now 0 0 (len_of left.now) ≤ leaves left.now 0
        (len_of left.now) }
    ensures within_right { tally left.now right.now 0 0 (len_of left.now) ≤ leaves right.now 0
        (len_of right.now) }
    ensures kept { steps.old ≤ steps.new }
{
    equal_windows(alloc, left, 0, right, 0, left.len(), steps)
}

/// Returns a bit for each index `i`: 1 if row `i` of `left` and row `i` of `right` are equal. Both
/// arrays have the same type and length. Nested rows are equal if they are the same tree: if all
/// their items or fields are equal. Null is equal to null alone. The error is `Memory`.
pub fn array_tot_eq_missing_kernel(
    alloc: Global,
    left: &AnyArray,
    right: &AnyArray,
) -> Result<Bitmap, ComputeError>
    requires left_good { IsGood left.now }
    requires right_good { IsGood right.now }
    requires one_type { type_of left.now ≡ type_of right.now }
    requires one_length { len_of left.now ≡ len_of right.now }
    ensures trees { MatchResult result (SameTrees true left.now right.now) IsMemory }
    ensures missing { MatchResult result
        (MissingEquality true (type_of left.now ≡ type_of right.now) (rows left.now)
        (rows right.now)) IsMemory }
{
    array_tot_eq_missing_kernel_with_steps(alloc, left, right, &mut Steps::new())
}

/// Returns a bit for each index `i`: 1 if row `i` of `left` and row `i` of `right` differ. Both
/// arrays have the same type and length. Nested rows differ if they are not the same tree: if some
/// of their items or fields differ. Null is equal to null alone. The error is `Memory`.
pub fn array_tot_ne_missing_kernel(
    alloc: Global,
    left: &AnyArray,
    right: &AnyArray,
) -> Result<Bitmap, ComputeError>
    requires left_good { IsGood left.now }
    requires right_good { IsGood right.now }
    requires one_type { type_of left.now ≡ type_of right.now }
    requires one_length { len_of left.now ≡ len_of right.now }
    ensures trees { MatchResult result (SameTrees false left.now right.now) IsMemory }
    ensures missing { MatchResult result
        (MissingEquality false (type_of left.now ≡ type_of right.now) (rows left.now)
        (rows right.now)) IsMemory }
{
    array_tot_ne_missing_kernel_counted(alloc, left, right, &mut Steps::new())
}
