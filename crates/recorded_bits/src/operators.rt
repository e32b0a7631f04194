//! The operators and merges that calls on bitmaps and masks apply.

/// An operator on the bits `x` and `y` of two operands at the same index. `AndNot` is `x & !y`, and
/// `OrNot` is `x | !y`.
#[derive(Clone, Copy)]
pub enum Operator {
    And,
    Or,
    Xor,
    Xnor,
    AndNot,
    OrNot,
}

/// A merge of bits with the masks of two sides. The bits say which stored values are equal (`Eq`)
/// or unequal (`Ne`), and the result says which rows are equal or unequal. Null is equal only to
/// null.
#[derive(Clone, Copy)]
pub enum Merge {
    Eq,
    Ne,
}
