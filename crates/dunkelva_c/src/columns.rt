//! Calls of generic functions at the number type of a part's kind.

// Evaluates `$each` with the numbers of a part bound to `$values`. Gives the error `NotServed` if
// the part's kind has no numbers of 8 to 64 bits.
macro_rules! at_number_kind {
    ($part:expr, $values:ident => $each:expr) => {
        match PartKind::of($part.kind) {
            Some(PartKind::Int8) => { let $values = $part.i8s; $each }
            Some(PartKind::Int16) => { let $values = $part.i16s; $each }
            Some(PartKind::Int32) => { let $values = $part.i32s; $each }
            Some(PartKind::Int64) => { let $values = $part.i64s; $each }
            Some(PartKind::UInt8) => { let $values = $part.u8s; $each }
            Some(PartKind::UInt16) => { let $values = $part.u16s; $each }
            Some(PartKind::UInt32) => { let $values = $part.u32s; $each }
            Some(PartKind::UInt64) => { let $values = $part.u64s; $each }
            _ => Err(Fault::NotServed),
        }
    };
}

pub(crate) use at_number_kind;

// Evaluates `$each` with the numbers of two parts of one kind bound to `$xs` and `$ys`. Gives the
// error `NotServed` if the kind has no numbers of 8 to 64 bits.
macro_rules! at_one_kind {
    ($left:expr, $right:expr, ($xs:ident, $ys:ident) => $each:expr) => {
        match PartKind::of($left.kind) {
            Some(PartKind::Int8) => { let ($xs, $ys) = ($left.i8s, $right.i8s); $each }
            Some(PartKind::Int16) => { let ($xs, $ys) = ($left.i16s, $right.i16s); $each }
            Some(PartKind::Int32) => { let ($xs, $ys) = ($left.i32s, $right.i32s); $each }
            Some(PartKind::Int64) => { let ($xs, $ys) = ($left.i64s, $right.i64s); $each }
            Some(PartKind::UInt8) => { let ($xs, $ys) = ($left.u8s, $right.u8s); $each }
            Some(PartKind::UInt16) => { let ($xs, $ys) = ($left.u16s, $right.u16s); $each }
            Some(PartKind::UInt32) => { let ($xs, $ys) = ($left.u32s, $right.u32s); $each }
            Some(PartKind::UInt64) => { let ($xs, $ys) = ($left.u64s, $right.u64s); $each }
            _ => Err(Fault::NotServed),
        }
    };
}

pub(crate) use at_one_kind;
