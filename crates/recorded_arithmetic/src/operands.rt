//! Operands of calls: arrays of the store, or some of their rows, and numbers. A call gets a clone
//! of the array or of the rows.

ghost use Rattle.std.specs.Prelude.{◌≡◌, ◌+◌, ◌≤◌, IfOk, IfSome, length};
ghost use Rattle.recorded_text.specs.Cases.{HasGoodArrays};

use polars_arrays_flat::array::Array;
use polars_arrays_flat::primitive::PrimitiveArray;
use polars_arrays_nested::any_array::AnyArray;
use polars_arrays_numbers::native_type::NativeType;
use recorded_text::fault::Fault;
use recorded_text::store::Store;
use recorded_text::words::Words;
use std::alloc::Global;
use std::str::FromStr;

/// Some rows of an array.
#[derive(Clone, Copy)]
pub enum Part {
    /// All rows.
    Whole,
    /// `n` rows from row `at` on.
    Slice { at: usize, n: usize },
}

impl Part {
    // Returns the first row and the number of rows of this part of an array of `len` rows, or
    // `None` for all rows. The error is `Case` if the array does not have the rows.
    fn window(self, len: usize) -> Result<Option<(usize, usize)>, Fault>
        ensures { IfOk result (λ window. IfSome window (λ rows. rows.0 + rows.1 ≤ len)) }
    {
        match self {
            Part::Whole => Ok(None),
            Part::Slice { at, n } if at <= len && n <= len - at => Ok(Some((at, n))),
            Part::Slice { .. } => Err(Fault::Case),
        }
    }
}

/// An array of the store, and the part of its rows that the call takes.
#[derive(Clone, Copy)]
pub struct Operand<'a> {
    pub array: &'a AnyArray,
    pub part: Part,
}

/// Reads an operand: the name of an array, for all of its rows, or the word `slice`, a name, the
/// first row and the number of rows. Doesn't check whether the array has these rows. The error is
/// `Word` if a word is missing or is no number, and `Case` if no array has the name.
pub fn read_operand<'a>(store: &'a Store, words: &mut Words) -> Result<Operand<'a>, Fault>
    requires { HasGoodArrays store.now }
{
    let is_slice = words.take("slice");
    let array = store.read(words)?;
    let part = if is_slice {
        let at = words.read_number()?;
        let n = words.read_number()?;
        Part::Slice { at, n }
    } else {
        Part::Whole
    };
    Ok(Operand { array, part })
}

/// Returns a clone of the rows `part` of an array. The clone owns its values exactly if the array
/// does. The error is `Case` if the array does not have the rows, and `Memory` if an allocation
/// fails.
pub fn clone_part<T: NativeType>(
    alloc: Global,
    array: &PrimitiveArray<T>,
    part: Part,
) -> Result<PrimitiveArray<T>, Fault> {
    let window = part.window(array.len())?;
    let mut copy = array.clone_array(alloc)?;
    if let Some((at, n)) = window {
        copy.slice(at, n);
    }
    Ok(copy)
}

/// Returns clones of some rows of `left` and of `right`: the first part is of `left`, the second of
/// `right`. The error is `Case` if an array does not have its rows or if the parts differ in
/// length, and `Memory` if an allocation fails.
pub fn clone_parts<L: NativeType, R: NativeType>(
    alloc: Global,
    left: &PrimitiveArray<L>,
    right: &PrimitiveArray<R>,
    parts: (Part, Part),
) -> Result<(PrimitiveArray<L>, PrimitiveArray<R>), Fault>
    ensures { IfOk result (λ clones. length clones.0.values ≡ length clones.1.values) }
{
    let left = clone_part(alloc, left, parts.0)?;
    match clone_part(alloc, right, parts.1) {
        Ok(right) => pair(left, right),
        Err(fault) => {
            drop(left);
            Err(fault)
        }
    }
}

// Returns both arrays. If their lengths differ, drops them; the error is then `Case`.
fn pair<L: NativeType, R: NativeType>(
    left: PrimitiveArray<L>,
    right: PrimitiveArray<R>,
) -> Result<(PrimitiveArray<L>, PrimitiveArray<R>), Fault>
    ensures { IfOk result (λ pair. length pair.0.values ≡ length pair.1.values) }
{
    if left.len() == right.len() {
        return Ok((left, right));
    }
    drop(left);
    drop(right);
    Err(Fault::Case)
}

/// Converts a word to a number. The error is `Word` if it is no number of the type `N`.
pub fn number_of<N: FromStr<Err: Drop>>(word: &str) -> Result<N, Fault> {
    match word.parse() {
        Ok(number) => Ok(number),
        Err(_) => Err(Fault::Word),
    }
}
