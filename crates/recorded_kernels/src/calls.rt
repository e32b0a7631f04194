//! The calls of this crate, and the names that lines use for them.

use crate::any_kind::{Law, ListKind};
use crate::joining::Join;
use crate::kernel_names::{KERNELS, Question};
use crate::named_comparisons::Compared;
use crate::view_rows::Asked;
use crate::windows::Counted;
use polars_compare_leaves::joining::Relation;
use recorded_text::names::find;

/// A call of this crate, grouped by the operands that it takes.
#[derive(Clone, Copy)]
pub enum Call {
    /// The rows of two arrays of one kind.
    Rows(Question),
    /// The rows of an array, and an owned scalar.
    Scalar(Question),
    /// The rows of an array, and a borrowed byte string.
    Bytes(Question),
    /// The rows of an array, and a borrowed text.
    Text(Question),
    /// The equality or inequality of two arrays of any kind, with null equal only to null.
    Missing(Relation),
    /// The equality of two arrays of any kind, with null equal only to null, by the function that
    /// takes a counter.
    WithSteps,
    /// The comparison of each list with all rows of an array.
    Lists(ListKind),
    /// The call of a law, a function that does nothing at run time.
    Law(Law),
    /// The comparison of two windows, and the number of comparisons of leaves.
    Counted(Counted),
    /// The comparison of each stored number with one number.
    Numbers,
    /// The comparison of the stored numbers of two windows.
    NumberWindows,
    /// A named comparison of these operands.
    Compared(Compared),
    /// A call on rows of arrays of views, or on a prepared byte string.
    Views(Asked),
    /// The join of raw bits with two masks.
    Join(Join),
}

impl Call {
    /// Returns the call that `name` names, or `None` if this crate has no such call.
    pub fn named(name: &str) -> Option<Call> {
        match find(&CALLS, name) {
            Some(call) => Some(call),
            None => Call::of_kernel(name),
        }
    }

    // Returns the call of the kernel that `name` names, or `None` if there is none. The name has
    // the suffix `_broadcast` if the kernel compares rows with a scalar. It also has the prefix
    // `bytes_` or `text_` if the scalar is borrowed.
    fn of_kernel(name: &str) -> Option<Call> {
        let Some(name) = name.strip_suffix("_broadcast") else {
            return find(&KERNELS, name).map(Call::Rows);
        };
        if let Some(name) = name.strip_prefix("bytes_") {
            return find(&KERNELS, name).map(Call::Bytes);
        }
        match name.strip_prefix("text_") {
            Some(name) => find(&KERNELS, name).map(Call::Text),
            None => find(&KERNELS, name).map(Call::Scalar),
        }
    }
}

// All calls by name, except those that `Call::of_kernel` finds.
const CALLS: [(&str, Call); 45] = [
    ("can_compare", Call::Rows(Question::Can)),
    ("can_broadcast", Call::Scalar(Question::Can)),
    (
        "array_tot_eq_missing_kernel",
        Call::Missing(Relation::Equal),
    ),
    (
        "array_tot_ne_missing_kernel",
        Call::Missing(Relation::Unequal),
    ),
    ("array_tot_eq_missing_kernel_with_steps", Call::WithSteps),
    (
        "array_tot_eq_missing_kernel_counted",
        Call::Counted(Counted::Missing(Relation::Equal)),
    ),
    (
        "array_tot_ne_missing_kernel_counted",
        Call::Counted(Counted::Missing(Relation::Unequal)),
    ),
    ("list_broadcast", Call::Lists(ListKind::Offsets)),
    (
        "fixed_size_list_broadcast",
        Call::Lists(ListKind::FixedSize),
    ),
    ("law_tally", Call::Law(Law::Tally)),
    ("law_steps", Call::Law(Law::Steps)),
    ("equal_windows", Call::Counted(Counted::Windows)),
    ("eq_lists", Call::Counted(Counted::Lists)),
    (
        "eq_fixed_size_lists",
        Call::Counted(Counted::FixedSizeLists),
    ),
    ("eq_structs", Call::Counted(Counted::Structs)),
    ("eq_dictionaries", Call::Counted(Counted::Dictionaries)),
    ("leaf_eq", Call::Counted(Counted::Leaves)),
    ("compare_number", Call::Numbers),
    ("compare_number_windows", Call::NumberWindows),
    ("compare_truth", Call::Compared(Compared::Truths)),
    ("compare_bytes", Call::Compared(Compared::Strings)),
    ("compare_view_bytes", Call::Compared(Compared::Views)),
    (
        "compare_truth_windows",
        Call::Compared(Compared::TruthWindows),
    ),
    (
        "compare_byte_windows",
        Call::Compared(Compared::StringWindows),
    ),
    (
        "compare_sized_windows",
        Call::Compared(Compared::SizedWindows),
    ),
    (
        "compare_view_windows",
        Call::Compared(Compared::ViewWindows),
    ),
    ("truth_comparison", Call::Compared(Compared::TwoTruths)),
    ("truth_comparison_masks", Call::Compared(Compared::Masks)),
    ("byte_comparison", Call::Compared(Compared::TwoStrings)),
    (
        "byte_comparison_constant",
        Call::Compared(Compared::StringAndConstant),
    ),
    ("view_comparison", Call::Compared(Compared::TwoViews)),
    (
        "view_comparison_bytes",
        Call::Compared(Compared::ViewAndString),
    ),
    ("rows_equal", Call::Views(Asked::Equal)),
    ("row_less", Call::Views(Asked::Less)),
    ("row_equals_bytes", Call::Views(Asked::EqualsBytes)),
    ("row_less_bytes", Call::Views(Asked::LessThanBytes)),
    ("bytes_less_row", Call::Views(Asked::GreaterThanBytes)),
    ("tot_eq_kernel_followed", Call::Views(Asked::EqualRows)),
    ("tot_lt_kernel_followed", Call::Views(Asked::LessRows)),
    ("followed", Call::Views(Asked::Followed)),
    ("scalar_row_len", Call::Views(Asked::ScalarLen)),
    ("scalar_row_bytes", Call::Views(Asked::ScalarBytes)),
    ("scalar_row_prefix", Call::Views(Asked::ScalarPrefix)),
    ("join_nulls", Call::Join(Join::Nulls)),
    ("join_masks", Call::Join(Join::Masks)),
];
