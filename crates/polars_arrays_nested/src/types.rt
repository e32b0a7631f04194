//! Equality of the types of arrays of any kind.

ghost use Rattle.std.specs.Prelude.{◌≡◌, ◌↔◌, IsTrue};
ghost use Rattle.polars_arrays_flat.specs.DataType.{kind_of};
ghost use Rattle.polars_arrays_nested.specs.Types.{type_of};
ghost use Rattle.polars_arrays_nested.specs.declared.any_array.AnyArray.{List, FixedSizeList};
ghost use Rattle.polars_arrays_nested.specs.declared.any_array.AnyArray.{Struct, Dictionary};

use crate::any_array::AnyArray;
use crate::dictionary::DictionaryArray;
use crate::fixed_size_list::FixedSizeListArray;
use crate::list::ListArray;
use crate::struct_array::StructArray;
use polars_arrays_flat::data_type::{ArrowDataType, is_struct_of, same_fields, same_keys};

// Matches on the array `$any`. If its type has no parameters, returns whether `$other` has the same
// type. The other kinds have match arms of their own.
macro_rules! same_type_as {
    ($other:expr, $any:expr, $($kind:ident)+, $($rest:tt)*) => {
        match $any {
            $(AnyArray::$kind(_) => $other.has_type(&ArrowDataType::$kind),)+
            $($rest)*
        }
    };
}

impl AnyArray {
    /// Returns whether the array has the type `dtype`. Does not allocate.
    pub fn has_type(&self, dtype: &ArrowDataType) -> bool
        ensures { IsTrue result ↔ (type_of self.now ≡ kind_of dtype.now) }
    {
        match (self, dtype) {
            (AnyArray::Null(_), ArrowDataType::Null) => true,
            (AnyArray::Boolean(_), ArrowDataType::Boolean) => true,
            (AnyArray::Int8(_), ArrowDataType::Int8) => true,
            (AnyArray::Int16(_), ArrowDataType::Int16) => true,
            (AnyArray::Int32(_), ArrowDataType::Int32) => true,
            (AnyArray::Int64(_), ArrowDataType::Int64) => true,
            (AnyArray::Int128(_), ArrowDataType::Int128) => true,
            (AnyArray::UInt8(_), ArrowDataType::UInt8) => true,
            (AnyArray::UInt16(_), ArrowDataType::UInt16) => true,
            (AnyArray::UInt32(_), ArrowDataType::UInt32) => true,
            (AnyArray::UInt64(_), ArrowDataType::UInt64) => true,
            (AnyArray::UInt128(_), ArrowDataType::UInt128) => true,
            (AnyArray::Binary(_), ArrowDataType::Binary) => true,
            (AnyArray::LargeBinary(_), ArrowDataType::LargeBinary) => true,
            (AnyArray::Utf8(_), ArrowDataType::Utf8) => true,
            (AnyArray::LargeUtf8(_), ArrowDataType::LargeUtf8) => true,
            (AnyArray::BinaryView(_), ArrowDataType::BinaryView) => true,
            (AnyArray::Utf8View(_), ArrowDataType::Utf8View) => true,
            (AnyArray::FixedSizeBinary(a), ArrowDataType::FixedSizeBinary(n)) => a.size() == *n,
            (AnyArray::List(array), ArrowDataType::List(item)) => {
                !array.offsets().is_large() && array.values().has_type(item)
            }
            (AnyArray::List(array), ArrowDataType::LargeList(item)) => {
                array.offsets().is_large() && array.values().has_type(item)
            }
            (AnyArray::FixedSizeList(array), ArrowDataType::FixedSizeList(item, width)) => {
                array.width() == *width && array.values().has_type(item)
            }
            (AnyArray::Struct(array), _) => is_struct_of(array.fields(), dtype),
            (AnyArray::Dictionary(array), ArrowDataType::Dictionary(keys, entry)) => {
                same_keys(array.keys().key_type(), *keys) && array.values().has_type(entry)
            }
            _ => false,
        }
    }

    /// Returns whether two arrays have the same type. Does not allocate.
    #[cycle(same_type)]
    pub fn same_type(&self, other: &AnyArray) -> bool
        ensures { IsTrue result ↔ (type_of self.now ≡ type_of other.now) }
    {
        same_type_as!(
            other,
            self,
            Null Boolean Int8 Int16 Int32 Int64 Int128 UInt8 UInt16 UInt32 UInt64 UInt128 Binary
            LargeBinary Utf8 LargeUtf8 BinaryView Utf8View,
            AnyArray::FixedSizeBinary(array) => {
                other.has_type(&ArrowDataType::FixedSizeBinary(array.size()))
            }
            AnyArray::List(array) => array.is_type_of(other),
            AnyArray::FixedSizeList(array) => array.is_type_of(other),
            AnyArray::Struct(array) => array.is_type_of(other),
            AnyArray::Dictionary(array) => array.is_type_of(other),
        )
    }
}

impl ListArray {
    // Returns whether `other` has the same type as this array.
    #[cycle(same_type)]
    fn is_type_of(&self, other: &AnyArray) -> bool
        ensures { IsTrue result ↔ (type_of (List self.now) ≡ type_of other.now) }
    {
        match other {
            AnyArray::List(other) => {
                self.offsets().is_large() == other.offsets().is_large()
                    && self.values().same_type(other.values())
            }
            _ => false,
        }
    }
}

impl FixedSizeListArray {
    // Returns whether `other` has the same type as this array.
    #[cycle(same_type)]
    fn is_type_of(&self, other: &AnyArray) -> bool
        ensures { IsTrue result ↔ (type_of (FixedSizeList self.now) ≡ type_of other.now) }
    {
        match other {
            AnyArray::FixedSizeList(other) => {
                self.width() == other.width() && self.values().same_type(other.values())
            }
            _ => false,
        }
    }
}

impl StructArray {
    // Returns whether `other` has the same type as this array.
    fn is_type_of(&self, other: &AnyArray) -> bool
        ensures { IsTrue result ↔ (type_of (Struct self.now) ≡ type_of other.now) }
    {
        match other {
            AnyArray::Struct(other) => same_fields(self.fields(), other.fields()),
            _ => false,
        }
    }
}

impl DictionaryArray {
    // Returns whether `other` has the same type as this array.
    #[cycle(same_type)]
    fn is_type_of(&self, other: &AnyArray) -> bool
        ensures { IsTrue result ↔ (type_of (Dictionary self.now) ≡ type_of other.now) }
    {
        match other {
            AnyArray::Dictionary(other) => {
                same_keys(self.keys().key_type(), other.keys().key_type())
                    && self.values().same_type(other.values())
            }
            _ => false,
        }
    }
}
