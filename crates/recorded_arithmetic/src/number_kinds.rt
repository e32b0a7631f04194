//! Macros that match on the kinds of arrays of numbers, for calls that exist for several kinds.

/// Evaluates an expression with `$array` bound to the array of numbers inside `$any`, for numbers
/// of 8 to 64 bits. The error is `Case` for an array of any other kind.
macro_rules! of_numbers {
    ($any:expr, $array:ident => $each:expr) => {
        match $any {
            AnyArray::Int8($array) => $each,
            AnyArray::Int16($array) => $each,
            AnyArray::Int32($array) => $each,
            AnyArray::Int64($array) => $each,
            AnyArray::UInt8($array) => $each,
            AnyArray::UInt16($array) => $each,
            AnyArray::UInt32($array) => $each,
            AnyArray::UInt64($array) => $each,
            _ => Err(Fault::Case),
        }
    };
}

pub(crate) use of_numbers;

/// Evaluates an expression with `$left` and `$right` bound to the arrays of numbers inside `$these`
/// and `$those`, if both are of the same one of the listed kinds. The error is `Case` otherwise.
macro_rules! of_one_kind {
    ($these:expr, $those:expr, $left:ident, $right:ident => $each:expr, $($kind:ident)+) => {
        match $these {
            $(AnyArray::$kind($left) => match $those {
                AnyArray::$kind($right) => $each,
                _ => Err(Fault::Case),
            },)+
            _ => Err(Fault::Case),
        }
    };
}

pub(crate) use of_one_kind;
