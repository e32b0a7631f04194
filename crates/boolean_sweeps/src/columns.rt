//! The array lengths, the bit offsets and the distributions of rows that a sweep uses.

use crate::column::Sort;

/// The lengths of arrays.
pub const LENGTHS: [usize; 8] = [0, 1, 63, 64, 65, 127, 128, 129];

/// The number of bit offsets at which arrays begin: 0 to 65.
pub const OFFSETS: usize = 66;

/// Random truth values, without a validity.
pub const PLAIN: Sort = Sort {
    has_validity: false,
    nulls: 0,
    trues: 16,
};

/// Rows that are all true, with a validity.
pub const ALL_TRUE: Sort = Sort {
    has_validity: true,
    nulls: 0,
    trues: 32,
};

/// Rows with a validity. About half are null, and the present rows are random.
pub const HALF_NULL: Sort = Sort {
    has_validity: true,
    nulls: 16,
    trues: 16,
};

/// Rows with a validity. About half are null, and all present rows are true.
pub const NULL_OR_TRUE: Sort = Sort {
    has_validity: true,
    nulls: 16,
    trues: 32,
};

/// Rows with a validity. Most are null, and all present rows are false.
pub const FEW_FALSE: Sort = Sort {
    has_validity: true,
    nulls: 29,
    trues: 0,
};

/// Rows that are all null.
pub const ALL_NULL: Sort = Sort {
    has_validity: true,
    nulls: 32,
    trues: 16,
};

/// Returns the bit offset of the validity of an array whose values begin at bit `values`. Different
/// offsets of the values give different offsets of the validity.
pub fn validity_offset(values: usize) -> usize {
    values.saturating_mul(7).saturating_add(3) % OFFSETS
}
