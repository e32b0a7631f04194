//! The calls of this crate, and the names that lines use for them.

/// A call of this crate.
#[derive(Clone, Copy)]
pub enum Call {
    /// A call on the bits of the rows of an array.
    Bits(BitQuestion),
    /// A call for extremes. The fields say what is compared, and which extremes are returned.
    Extremes(Subject, Extremes),
    /// A call for the extremes of an array of any kind. The field says which are returned.
    Dispatched(Extremes),
    /// A call for the best byte string of an array: the least or the greatest, as the line says.
    Best(Best),
    /// A call that joins two scalars bit by bit.
    Join(Join),
}

/// A call on the bits of the rows of an array.
#[derive(Clone, Copy)]
pub enum BitQuestion {
    /// A count of bits in each row.
    Count(Count),
    /// A reduction of all present rows by a bitwise operator.
    Reduce(Join),
}

/// A count of the bits of each row.
#[derive(Clone, Copy)]
pub enum Count {
    Ones,
    Zeros,
    LeadingOnes,
    LeadingZeros,
    TrailingOnes,
    TrailingZeros,
}

/// A bitwise operator on two operands.
#[derive(Clone, Copy)]
pub enum Join {
    And,
    Or,
    Xor,
}

/// The values of an array that a call for extremes compares.
#[derive(Clone, Copy)]
pub enum Subject {
    /// The present rows of an array of numbers or truth values.
    Rows,
    /// The stored numbers of an array, including those of null rows.
    Stored,
    /// The present rows of an array of byte strings.
    Bytes,
    /// The present rows of an array of texts.
    Texts,
}

/// A selection of extremes: the least (`Min`), the greatest (`Max`) or both (`MinMax`). `Ignore`
/// stands for the calls with `ignore_nan` in their name, and `Propagate` for those with
/// `propagate_nan`.
#[derive(Clone, Copy)]
pub enum Extremes {
    MinIgnore,
    MaxIgnore,
    MinMaxIgnore,
    MinPropagate,
    MaxPropagate,
    MinMaxPropagate,
}

/// The part of the best byte string of an array that a call returns. The best one is the least or
/// the greatest.
#[derive(Clone, Copy)]
pub enum Best {
    /// The index of its row.
    Place,
    /// Its bytes.
    Bytes,
}

/// The name of each call, and the call.
pub const CALLS: [(&str, Call); 43] = [
    ("count_ones", Call::Bits(BitQuestion::Count(Count::Ones))),
    ("count_zeros", Call::Bits(BitQuestion::Count(Count::Zeros))),
    (
        "leading_ones",
        Call::Bits(BitQuestion::Count(Count::LeadingOnes)),
    ),
    (
        "leading_zeros",
        Call::Bits(BitQuestion::Count(Count::LeadingZeros)),
    ),
    (
        "trailing_ones",
        Call::Bits(BitQuestion::Count(Count::TrailingOnes)),
    ),
    (
        "trailing_zeros",
        Call::Bits(BitQuestion::Count(Count::TrailingZeros)),
    ),
    ("reduce_and", Call::Bits(BitQuestion::Reduce(Join::And))),
    ("reduce_or", Call::Bits(BitQuestion::Reduce(Join::Or))),
    ("reduce_xor", Call::Bits(BitQuestion::Reduce(Join::Xor))),
    (
        "min_ignore_nan_kernel",
        Call::Extremes(Subject::Rows, Extremes::MinIgnore),
    ),
    (
        "max_ignore_nan_kernel",
        Call::Extremes(Subject::Rows, Extremes::MaxIgnore),
    ),
    (
        "min_max_ignore_nan_kernel",
        Call::Extremes(Subject::Rows, Extremes::MinMaxIgnore),
    ),
    (
        "min_propagate_nan_kernel",
        Call::Extremes(Subject::Rows, Extremes::MinPropagate),
    ),
    (
        "max_propagate_nan_kernel",
        Call::Extremes(Subject::Rows, Extremes::MaxPropagate),
    ),
    (
        "min_max_propagate_nan_kernel",
        Call::Extremes(Subject::Rows, Extremes::MinMaxPropagate),
    ),
    (
        "slice_min_ignore_nan_kernel",
        Call::Extremes(Subject::Stored, Extremes::MinIgnore),
    ),
    (
        "slice_max_ignore_nan_kernel",
        Call::Extremes(Subject::Stored, Extremes::MaxIgnore),
    ),
    (
        "slice_min_max_ignore_nan_kernel",
        Call::Extremes(Subject::Stored, Extremes::MinMaxIgnore),
    ),
    (
        "slice_min_propagate_nan_kernel",
        Call::Extremes(Subject::Stored, Extremes::MinPropagate),
    ),
    (
        "slice_max_propagate_nan_kernel",
        Call::Extremes(Subject::Stored, Extremes::MaxPropagate),
    ),
    (
        "slice_min_max_propagate_nan_kernel",
        Call::Extremes(Subject::Stored, Extremes::MinMaxPropagate),
    ),
    (
        "bytes_min_ignore_nan_kernel",
        Call::Extremes(Subject::Bytes, Extremes::MinIgnore),
    ),
    (
        "bytes_max_ignore_nan_kernel",
        Call::Extremes(Subject::Bytes, Extremes::MaxIgnore),
    ),
    (
        "bytes_min_max_ignore_nan_kernel",
        Call::Extremes(Subject::Bytes, Extremes::MinMaxIgnore),
    ),
    (
        "bytes_min_propagate_nan_kernel",
        Call::Extremes(Subject::Bytes, Extremes::MinPropagate),
    ),
    (
        "bytes_max_propagate_nan_kernel",
        Call::Extremes(Subject::Bytes, Extremes::MaxPropagate),
    ),
    (
        "bytes_min_max_propagate_nan_kernel",
        Call::Extremes(Subject::Bytes, Extremes::MinMaxPropagate),
    ),
    (
        "text_min_ignore_nan_kernel",
        Call::Extremes(Subject::Texts, Extremes::MinIgnore),
    ),
    (
        "text_max_ignore_nan_kernel",
        Call::Extremes(Subject::Texts, Extremes::MaxIgnore),
    ),
    (
        "text_min_max_ignore_nan_kernel",
        Call::Extremes(Subject::Texts, Extremes::MinMaxIgnore),
    ),
    (
        "text_min_propagate_nan_kernel",
        Call::Extremes(Subject::Texts, Extremes::MinPropagate),
    ),
    (
        "text_max_propagate_nan_kernel",
        Call::Extremes(Subject::Texts, Extremes::MaxPropagate),
    ),
    (
        "text_min_max_propagate_nan_kernel",
        Call::Extremes(Subject::Texts, Extremes::MinMaxPropagate),
    ),
    (
        "dyn_array_min_ignore_nan",
        Call::Dispatched(Extremes::MinIgnore),
    ),
    (
        "dyn_array_max_ignore_nan",
        Call::Dispatched(Extremes::MaxIgnore),
    ),
    (
        "dyn_array_min_propagate_nan",
        Call::Dispatched(Extremes::MinPropagate),
    ),
    (
        "dyn_array_max_propagate_nan",
        Call::Dispatched(Extremes::MaxPropagate),
    ),
    (
        "dyn_array_min_max_propagate_nan",
        Call::Dispatched(Extremes::MinMaxPropagate),
    ),
    ("best_place", Call::Best(Best::Place)),
    ("best_string", Call::Best(Best::Bytes)),
    ("bit_and", Call::Join(Join::And)),
    ("bit_or", Call::Join(Join::Or)),
    ("bit_xor", Call::Join(Join::Xor)),
];
