//! The kernels of rows by name.

use polars_arrays_bits::bitmap::Bitmap;
use polars_arrays_bits::error::ComputeError;
use recorded_text::bits_text::{write_made, write_made_present};
use recorded_text::fault::Fault;
use std::alloc::Global;

/// A question about rows.
#[derive(Clone, Copy)]
pub enum Question {
    /// A truth value: whether kernels of equality can be called.
    Can,
    /// The bits of a kernel of equality.
    Equality(Equality),
    /// The bits of a kernel of order.
    Order(Order),
}

/// A kernel of equality or inequality. `Equal` and `Unequal` are raw comparisons, whose bits are
/// not defined for null rows. `EqualMissing` and `UnequalMissing` are missing comparisons, in which
/// null is equal only to null.
#[derive(Clone, Copy)]
pub enum Equality {
    Equal,
    Unequal,
    EqualMissing,
    UnequalMissing,
}

impl Equality {
    /// Returns the text of `bits`, the result of a broadcast by this kernel. For a raw comparison,
    /// rows that `validity` masks are shown as `x`. If `bits` is an error, converts it to a
    /// `Fault`.
    pub fn write(
        self,
        alloc: Global,
        bits: Result<Bitmap, ComputeError>,
        validity: Option<&Bitmap>,
    ) -> Result<String, Fault> {
        match self {
            Equality::Equal | Equality::Unequal => write_made_present(alloc, bits, validity, None),
            Equality::EqualMissing | Equality::UnequalMissing => write_made(alloc, bits),
        }
    }
}

/// A kernel of order.
#[derive(Clone, Copy)]
pub enum Order {
    Less,
    LessOrEqual,
    Greater,
    GreaterOrEqual,
}

/// The kernels by name. Calls that compare rows with a scalar add affixes to these names.
pub const KERNELS: [(&str, Question); 8] = [
    ("tot_eq_kernel", Question::Equality(Equality::Equal)),
    ("tot_ne_kernel", Question::Equality(Equality::Unequal)),
    (
        "tot_eq_missing_kernel",
        Question::Equality(Equality::EqualMissing),
    ),
    (
        "tot_ne_missing_kernel",
        Question::Equality(Equality::UnequalMissing),
    ),
    ("tot_lt_kernel", Question::Order(Order::Less)),
    ("tot_le_kernel", Question::Order(Order::LessOrEqual)),
    ("tot_gt_kernel", Question::Order(Order::Greater)),
    ("tot_ge_kernel", Question::Order(Order::GreaterOrEqual)),
];
