//! First steps: compares two columns of numbers, and two columns of orders, row by row. The columns
//! are built from their parts.
//!
//! An order is a struct. Its items are a list of numbers, and its city is an entry of a dictionary.
//! The second column of orders is equal to the first except for one item, but is stored in another
//! way: the null list has stored items, and the cities in the dictionary are swapped.
//!
//! A function that returns a `Fault` fails with `Fault::Memory` if an allocation fails, and with
//! `Fault::Output` if it prints and the output can't be written.
#![tactic(auto)]

ghost use Rattle.std.specs.List.{All};
ghost use Rattle.std.specs.Prelude.{IfOk};
ghost use Rattle.polars_arrays_nested.specs.GoodParts.{IsGood};

use crate::fault::Fault;
use polars_arrays_bits::bitmap::Bitmap;
use polars_arrays_bits::buffer::Buffer;
use polars_arrays_bytes::text::Utf8Array;
use polars_arrays_flat::data_type::{ArrowDataType, Field, IntegerType};
use polars_arrays_flat::primitive::PrimitiveArray;
use polars_arrays_nested::any_array::AnyArray;
use polars_arrays_nested::dict_keys::DictKeys;
use polars_arrays_nested::dictionary::DictionaryArray;
use polars_arrays_nested::list::ListArray;
use polars_arrays_nested::list_offsets::ListOffsets;
use polars_arrays_nested::struct_array::StructArray;
use polars_arrays_numbers::steps::Steps;
use polars_compare_equality::kernel::TotalEqKernel;
use polars_compare_nested::kernels::array_tot_eq_missing_kernel_with_steps;
use std::alloc::Global;
use std::process::ExitCode;

mod fault;

/// The parts of a column of orders.
#[derive(Clone, Copy)]
struct Parts<'a> {
    /// The offsets of the lists of items. Order `i` has the items from `offsets[i]` up to
    /// `offsets[i + 1]`.
    offsets: &'a [i32],
    /// The items of all orders, one after another.
    items: &'a [i32],
    /// `false` for each order whose list of items is null.
    present: &'a [bool],
    /// For each order, the index of its city among the cities.
    keys: &'a [u8],
    /// The offsets of the cities. City `k` is the bytes of `cities` from `ends[k]` up to `ends[k +
    /// 1]`.
    ends: &'a [i32],
    /// The names of the cities, one after another.
    cities: &'a str,
}

/// Creates the array of the items of all orders.
fn items(alloc: Global, parts: &Parts) -> Result<Box<AnyArray>, Fault>
    ensures { IfOk result (λ array. IsGood array.value) }
{
    let items = PrimitiveArray::from_vec(Vec::from_slice(alloc, parts.items)?);
    Ok(Box::new(alloc, AnyArray::Int32(items))?)
}

/// Creates the array with the list of items of each order. Fails with `Fault::Parts` if
/// `ListArray::try_new` refuses the parts.
fn lists(alloc: Global, parts: &Parts) -> Result<AnyArray, Fault>
    ensures { IfOk result (λ array. IsGood array) }
{
    let validity = Bitmap::from_bools(alloc, parts.present)?;
    let offsets = Vec::from_slice(alloc, parts.offsets)?;
    let items = items(alloc, parts)?;
    let offsets = ListOffsets::Small(Buffer::from_vec(offsets));
    let array = ListArray::try_new(offsets, items, Some(validity))?;
    Ok(AnyArray::List(array))
}

/// Creates the array of cities. Fails with `Fault::Parts` if `Utf8Array::try_new` refuses the
/// parts.
fn cities(alloc: Global, parts: &Parts) -> Result<Box<AnyArray>, Fault>
    ensures { IfOk result (λ array. IsGood array.value) }
{
    let ends = Vec::from_slice(alloc, parts.ends)?;
    let bytes = Vec::from_slice(alloc, parts.cities.as_bytes())?;
    let array = Utf8Array::try_new(Buffer::from_vec(ends), Buffer::from_vec(bytes), None)?;
    Ok(Box::new(alloc, AnyArray::Utf8(array))?)
}

/// Creates the dictionary array that has the city of each order. Fails with `Fault::Parts` if the
/// offsets of the cities or the keys are refused.
fn named_cities(alloc: Global, parts: &Parts) -> Result<AnyArray, Fault>
    ensures { IfOk result (λ array. IsGood array) }
{
    let keys = Vec::from_slice(alloc, parts.keys)?;
    let entries = cities(alloc, parts)?;
    let keys = DictKeys::UInt8(PrimitiveArray::from_vec(keys));
    let array = DictionaryArray::try_new(keys, entries)?;
    Ok(AnyArray::Dictionary(array))
}

/// Creates a field of a struct.
fn field(alloc: Global, name: &str, dtype: ArrowDataType) -> Result<Field, Fault> {
    let name = String::from_str(alloc, name)?;
    Ok(Field { name, dtype })
}

/// Creates the fields of an order: `items`, a list of `Int32`, and `city`, a dictionary of texts
/// with `UInt8` keys.
fn fields(alloc: Global) -> Result<Vec<Field>, Fault> {
    let mut fields = Vec::new(alloc);
    let items = ArrowDataType::List(Box::new(alloc, ArrowDataType::Int32)?);
    fields.push(field(alloc, "items", items)?)?;
    let city = Box::new(alloc, ArrowDataType::Utf8)?;
    let city = ArrowDataType::Dictionary(IntegerType::UInt8, city);
    fields.push(field(alloc, "city", city)?)?;
    Ok(fields)
}

/// Creates the two child arrays of the orders: the lists of items, and the cities.
fn columns(alloc: Global, parts: &Parts) -> Result<Vec<AnyArray>, Fault>
    ensures { IfOk result (λ columns. All IsGood columns.items) }
{
    let mut columns = Vec::new(alloc);
    columns.push(lists(alloc, parts)?)?;
    columns.push(named_cities(alloc, parts)?)?;
    Ok(columns)
}

/// Creates the struct array of the orders. Fails with `Fault::Parts` if a constructor (`try_new`)
/// refuses the parts.
fn orders(alloc: Global, parts: &Parts) -> Result<Box<AnyArray>, Fault>
    ensures { IfOk result (λ array. IsGood array.value) }
{
    let fields = fields(alloc)?;
    let columns = columns(alloc, parts)?;
    let array = StructArray::try_new(fields, parts.keys.len(), columns, None)?;
    Ok(Box::new(alloc, AnyArray::Struct(array))?)
}

/// Compares two columns row by row, and prints the result for each row, and then the number of
/// comparisons of leaves. Null is equal to null alone. Fails with `Fault::Columns` if the columns
/// differ in type or in length.
fn print_same(
    rt: &(impl Print + AllocGlobal),
    left: &AnyArray,
    right: &AnyArray,
) -> Result<(), Fault>
    requires left { IsGood left.now }
    requires right { IsGood right.now }
{
    if !left.same_type(right) || left.len() != right.len() {
        return Err(Fault::Columns);
    }
    let mut steps = Steps::new();
    let same = array_tot_eq_missing_kernel_with_steps(rt.alloc(), left, right, &mut steps)?;
    print_rows(rt, &same, steps.seen())
}

/// Prints for each bit of `same` whether the two rows with this index are equal, and then the
/// number of comparisons of leaves.
fn print_rows(rt: &impl Print, same: &Bitmap, comparisons: u64) -> Result<(), Fault> {
    for i in 0..same.len() {
        let told = if same.get_bit(i) {
            "the same"
        } else {
            "not the same"
        };
        println!(rt; "row {i}: {told}")?;
    }
    println!(rt; "{comparisons} comparisons of leaves")?;
    Ok(())
}

/// Creates a column of numbers. Row `i` is null if `present[i]` is false. Fails with `Fault::Parts`
/// if the slices have different lengths.
fn numbers(alloc: Global, values: &[i32], present: &[bool]) -> Result<PrimitiveArray<i32>, Fault> {
    let values = Buffer::from_vec(Vec::from_slice(alloc, values)?);
    let validity = Bitmap::from_bools(alloc, present)?;
    Ok(PrimitiveArray::try_new(values, Some(validity))?)
}

/// Compares two columns of three numbers row by row, and prints the result for each row. Null is
/// equal to null alone.
fn compare_numbers(rt: &(impl Print + AllocGlobal)) -> Result<(), Fault> {
    let alloc = rt.alloc();
    let left = numbers(alloc, &[1, 2, 3], &[true, true, false])?;
    let right = numbers(alloc, &[1, 5, 9], &[true, true, false])?;
    if !left.can_compare(&right) {
        return Err(Fault::Columns);
    }
    let same = left.tot_eq_missing_kernel(alloc, &right)?;
    for row in 0..same.len() {
        println!(rt; "{row}: {}", same.get_bit(row))?;
    }
    Ok(())
}

/// Three orders. The second one has null instead of a list of items.
const FIRST: Parts<'static> = Parts {
    offsets: &[0, 2, 2, 3],
    items: &[1, 2, 7],
    present: &[true, false, true],
    keys: &[0, 1, 0],
    ends: &[0, 4, 10],
    cities: "OsloBergen",
};

/// Orders that are equal to `FIRST` except for the last item. They are stored in another way.
const SECOND: Parts<'static> = Parts {
    offsets: &[0, 2, 4, 5],
    items: &[1, 2, 9, 9, 8],
    present: &[true, false, true],
    keys: &[1, 0, 1],
    ends: &[0, 6, 10],
    cities: "BergenOslo",
};

/// Compares `FIRST` and `SECOND`, and prints the result for each row.
fn compare_orders(rt: &(impl Print + AllocGlobal)) -> Result<(), Fault> {
    let left = orders(rt.alloc(), &FIRST)?;
    let right = orders(rt.alloc(), &SECOND)?;
    print_same(rt, &left, &right)
}

/// Compares the columns. Then builds orders from offsets that exceed the items, and prints how they
/// are refused. Returns 1 if a step fails or these orders are not refused, and else 0.
fn main(rt: HostRuntime) -> ExitCode {
    if let Err(fault) = compare_numbers(&rt).and_then(|_| compare_orders(&rt)) {
        let _ = eprintln!(rt; "{fault}");
        return ExitCode::from(1);
    }
    let short = Parts {
        offsets: &[0, 2, 2, 4],
        ..FIRST
    };
    match orders(rt.alloc(), &short) {
        Ok(_) => ExitCode::from(1),
        Err(fault) => match println!(rt; "refused: {fault}") {
            Ok(()) => ExitCode::from(0),
            Err(_) => ExitCode::from(1),
        },
    }
}
