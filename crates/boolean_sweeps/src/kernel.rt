//! The kernels that compare rows, and their expected results.

/// A kernel that compares the rows of two arrays, or the rows of an array with a truth value.
#[derive(Clone, Copy)]
pub enum Kernel {
    Equal,
    Unequal,
    EqualMissing,
    UnequalMissing,
    Less,
    LessOrEqual,
    Greater,
    GreaterOrEqual,
}

impl Kernel {
    /// Returns the expected bit of the result for the rows `left` and `right`, or `None` if one of
    /// them is null and the kernel promises nothing about nulls.
    pub fn bit(self, left: Option<bool>, right: Option<bool>) -> Option<bool> {
        match self {
            Kernel::EqualMissing => Some(left == right),
            Kernel::UnequalMissing => Some(left != right),
            _ => Some(self.holds(left?, right?)),
        }
    }

    // Returns whether the comparison is true for two present rows. False is less than true.
    fn holds(self, left: bool, right: bool) -> bool {
        match self {
            Kernel::Equal | Kernel::EqualMissing => left == right,
            Kernel::Unequal | Kernel::UnequalMissing => left != right,
            Kernel::Less => left < right,
            Kernel::LessOrEqual => left <= right,
            Kernel::Greater => left > right,
            Kernel::GreaterOrEqual => left >= right,
        }
    }
}
