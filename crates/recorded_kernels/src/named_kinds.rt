//! Macros that match on the kind of an `AnyArray`, for calls that exist for several kinds.

/// Evaluates `$each`, where `$array` is the array inside `$any`, if its kind is one of `$kind`. For
/// other kinds, the result is the error `Case`.
macro_rules! of_kind {
    ($any:expr, $array:ident => $each:expr, $($kind:ident)+) => {
        match $any {
            $(AnyArray::$kind($array) => $each,)+
            _ => Err(Fault::Case),
        }
    };
}

pub(crate) use of_kind;

/// Evaluates `$each`, where `$left` and `$right` are the arrays inside `$these` and `$those`, if
/// both are of the same kind and it is one of `$kind`. If the kind of `$these` is none of `$kind`,
/// evaluates `$others`, which is the error `Case` if it is not given. If only `$those` is of
/// another kind, the result is the error `Case`.
macro_rules! of_one_kind {
    ($these:expr, $those:expr, $left:ident, $right:ident => $each:expr, $($kind:ident)+) => {
        of_one_kind!($these, $those, $left, $right => $each, $($kind)+, _ => Err(Fault::Case))
    };
    ($these:expr, $those:expr, $left:ident, $right:ident => $each:expr,
        $($kind:ident)+, _ => $others:expr) => {
        match $these {
            $(AnyArray::$kind($left) => match $those {
                AnyArray::$kind($right) => $each,
                _ => Err(Fault::Case),
            },)+
            _ => $others,
        }
    };
}

pub(crate) use of_one_kind;
