//! A macro for functions that exist for several kinds of arrays.

/// Evaluates `$each`, in which `$array` is the array that `$any`, an `AnyArray`, holds. The error
/// is `Case` if `$any` is of none of the kinds `$kind`.
macro_rules! of_kind {
    ($any:expr, $array:ident => $each:expr, $($kind:ident)+) => {
        match $any {
            $(AnyArray::$kind($array) => $each,)+
            _ => Err(Fault::Case),
        }
    };
}

pub(crate) use of_kind;
