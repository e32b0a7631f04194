//! Functions that return the array inside an `AnyArray` whose kind is known.
#![tactic(auto, using(crate::proofs::Cases::cases))]

ghost use Rattle.std.specs.Prelude.{◌≡◌, IsTrue};
ghost use Rattle.polars_arrays_nested.specs.Types.{type_of};
ghost use Rattle.polars_arrays_nested.specs.declared.any_array.AnyArray.{List, FixedSizeList};
ghost use Rattle.polars_arrays_nested.specs.declared.any_array.AnyArray.{Struct, Dictionary};
ghost use Rattle.polars_compare_nested.specs.KindSorts.{is_list, is_fixed_list, is_struct};
ghost use Rattle.polars_compare_nested.specs.KindSorts.{is_dictionary};

use polars_arrays_nested::any_array::AnyArray;
use polars_arrays_nested::dictionary::DictionaryArray;
use polars_arrays_nested::fixed_size_list::FixedSizeListArray;
use polars_arrays_nested::list::ListArray;
use polars_arrays_nested::struct_array::StructArray;

/// Returns the array inside `$array`, an `AnyArray` that must be of the kind `$kind`.
macro_rules! downcast {
    ($array:expr, $kind:ident) => {
        match $array {
            AnyArray::$kind(array) => array,
            _ => unreachable!(),
        }
    };
}

pub(crate) use downcast;

/// Returns the `ListArray` inside `array`, which must be of the kind `List`.
#[inline]
pub(crate) fn as_list(array: &AnyArray) -> &ListArray
    requires { IsTrue (is_list (type_of array.now)) }
    ensures { array.now ≡ List result.now }
{
    downcast!(array, List)
}

/// Returns the `FixedSizeListArray` inside `array`, which must be of the kind `FixedSizeList`.
#[inline]
pub(crate) fn as_fixed_size_list(array: &AnyArray) -> &FixedSizeListArray
    requires { IsTrue (is_fixed_list (type_of array.now)) }
    ensures { array.now ≡ FixedSizeList result.now }
{
    downcast!(array, FixedSizeList)
}

/// Returns the `StructArray` inside `array`, which must be of the kind `Struct`.
#[inline]
pub(crate) fn as_struct(array: &AnyArray) -> &StructArray
    requires { IsTrue (is_struct (type_of array.now)) }
    ensures { array.now ≡ Struct result.now }
{
    downcast!(array, Struct)
}

/// Returns the `DictionaryArray` inside `array`, which must be of the kind `Dictionary`.
#[inline]
pub(crate) fn as_dictionary(array: &AnyArray) -> &DictionaryArray
    requires { IsTrue (is_dictionary (type_of array.now)) }
    ensures { array.now ≡ Dictionary result.now }
{
    downcast!(array, Dictionary)
}
