//! The calls of this crate with their names. The modules that make the calls describe them.

use crate::comparisons::Compared;
use crate::numbers::{OfOffset, OfType};
use crate::operators::{Merge, Operator};
use crate::{bits, masks};

/// A call of this crate, without the operands.
#[derive(Clone, Copy)]
pub enum Call {
    /// A call on the number type named by the next word.
    NumberType(OfType),
    /// A call that returns the place of an offset.
    Offset(OfOffset),
    /// The index of the entry to which a key refers.
    Key,
    /// The value of a counter made by `Steps::new`, after numbers were added.
    Steps,
    /// The value of a counter made by `Steps::default`, after numbers were added.
    DefaultSteps,
    /// A call on bitmaps.
    Bits(bits::Asked),
    /// A call on masks.
    Masks(masks::Asked),
    /// Operations on a builder.
    Builder,
    /// Operations on bits that are changed in place.
    MutableBits,
    /// Operations on a buffer.
    Buffer,
    /// A comparison of numbers.
    Compared(Compared),
    /// The text of a computation error.
    ComputeError,
    /// The text of an array error.
    ArrayError,
    /// A sum over the results of a call at many places in words.
    Sweep,
    /// A sum over the results of `all_in_blocks` at many places in words.
    SweepOfBlocks,
}

/// The calls by name.
pub const CALLS: [(&str, Call); 67] = [
    ("least_value", Call::NumberType(OfType::Least)),
    ("greatest_value", Call::NumberType(OfType::Greatest)),
    ("number_width", Call::NumberType(OfType::Width)),
    ("is_signed", Call::NumberType(OfType::IsSigned)),
    ("has_wide_values", Call::NumberType(OfType::HasWideValues)),
    ("to_place", Call::Offset(OfOffset::Found)),
    ("place", Call::Offset(OfOffset::Known)),
    ("to_entry", Call::Key),
    ("steps", Call::Steps),
    ("default_steps", Call::DefaultSteps),
    ("and", Call::Bits(bits::Asked::Combined(Operator::And))),
    ("or", Call::Bits(bits::Asked::Combined(Operator::Or))),
    ("xor", Call::Bits(bits::Asked::Combined(Operator::Xor))),
    ("xnor", Call::Bits(bits::Asked::Combined(Operator::Xnor))),
    (
        "and_not",
        Call::Bits(bits::Asked::Combined(Operator::AndNot)),
    ),
    ("or_not", Call::Bits(bits::Asked::Combined(Operator::OrNot))),
    ("not", Call::Bits(bits::Asked::One(bits::OfOne::Not))),
    ("merge_eq", Call::Bits(bits::Asked::Merged(Merge::Eq))),
    ("merge_ne", Call::Bits(bits::Asked::Merged(Merge::Ne))),
    (
        "set_bits",
        Call::Bits(bits::Asked::One(bits::OfOne::SetBits)),
    ),
    (
        "unset_bits",
        Call::Bits(bits::Asked::One(bits::OfOne::UnsetBits)),
    ),
    ("bitmap_len", Call::Bits(bits::Asked::One(bits::OfOne::Len))),
    ("num_intersections_with", Call::Bits(bits::Asked::CountBoth)),
    ("get_bit", Call::Bits(bits::Asked::One(bits::OfOne::Bit))),
    ("bitmap_get", Call::Bits(bits::Asked::One(bits::OfOne::Get))),
    (
        "bitmap_slice",
        Call::Bits(bits::Asked::One(bits::OfOne::Slice)),
    ),
    (
        "bitmap_share",
        Call::Bits(bits::Asked::One(bits::OfOne::Share)),
    ),
    (
        "clone_bitmap",
        Call::Bits(bits::Asked::One(bits::OfOne::Clone)),
    ),
    (
        "slice_clone",
        Call::Bits(bits::Asked::One(bits::OfOne::SliceClone)),
    ),
    (
        "meet_shared",
        Call::Bits(bits::Asked::One(bits::OfOne::MeetShared)),
    ),
    ("new_zeroed", Call::Bits(bits::Asked::Zeroed)),
    ("new_with_value", Call::Bits(bits::Asked::Filled)),
    ("set_bits_filled", Call::Bits(bits::Asked::CountFilled)),
    ("from_bools", Call::Bits(bits::Asked::Bools)),
    ("from_words", Call::Bits(bits::Asked::Words)),
    (
        "from_values",
        Call::Bits(bits::Asked::One(bits::OfOne::Values)),
    ),
    (
        "from_wide_values",
        Call::Bits(bits::Asked::One(bits::OfOne::WideValues)),
    ),
    (
        "from_counted",
        Call::Bits(bits::Asked::One(bits::OfOne::Counted)),
    ),
    (
        "mask_and",
        Call::Masks(masks::Asked::Combined(Operator::And)),
    ),
    ("mask_or", Call::Masks(masks::Asked::Combined(Operator::Or))),
    (
        "mask_xor",
        Call::Masks(masks::Asked::Combined(Operator::Xor)),
    ),
    (
        "mask_xnor",
        Call::Masks(masks::Asked::Combined(Operator::Xnor)),
    ),
    (
        "mask_and_not",
        Call::Masks(masks::Asked::Combined(Operator::AndNot)),
    ),
    (
        "mask_or_not",
        Call::Masks(masks::Asked::Combined(Operator::OrNot)),
    ),
    (
        "mask_not",
        Call::Masks(masks::Asked::One(masks::OfOne::Not)),
    ),
    (
        "mask_merge_eq",
        Call::Masks(masks::Asked::Merged(Merge::Eq)),
    ),
    (
        "mask_merge_ne",
        Call::Masks(masks::Asked::Merged(Merge::Ne)),
    ),
    (
        "to_bitmap",
        Call::Masks(masks::Asked::One(masks::OfOne::Bits)),
    ),
    (
        "window",
        Call::Masks(masks::Asked::One(masks::OfOne::Window)),
    ),
    (
        "mask_len",
        Call::Masks(masks::Asked::One(masks::OfOne::Len)),
    ),
    (
        "mask_unset_bits",
        Call::Masks(masks::Asked::One(masks::OfOne::UnsetBits)),
    ),
    (
        "mask_get",
        Call::Masks(masks::Asked::One(masks::OfOne::Get)),
    ),
    (
        "few_bits",
        Call::Masks(masks::Asked::One(masks::OfOne::FewBits)),
    ),
    (
        "all_set",
        Call::Masks(masks::Asked::One(masks::OfOne::AllSet)),
    ),
    (
        "all_in_blocks",
        Call::Masks(masks::Asked::One(masks::OfOne::Blocks)),
    ),
    ("builder", Call::Builder),
    ("mutable", Call::MutableBits),
    ("buffer", Call::Buffer),
    ("compare", Call::Compared(Compared::Two)),
    (
        "packs_in_registers",
        Call::Compared(Compared::PacksInRegisters),
    ),
    ("compare_pairs", Call::Compared(Compared::Pairs)),
    ("compare_windows", Call::Compared(Compared::Windows)),
    ("compare_constant", Call::Compared(Compared::Constant)),
    ("compute_error", Call::ComputeError),
    ("array_error", Call::ArrayError),
    ("sweep", Call::Sweep),
    ("sweep_blocks", Call::SweepOfBlocks),
];
