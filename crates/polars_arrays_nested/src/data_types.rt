//! Returns the types of arrays as `ArrowDataType`, and clones such types.

ghost use Rattle.std.specs.Prelude.{◌≡◌, MatchResult};
ghost use Rattle.polars_arrays_bits.specs.Errors.{IsMemory};
ghost use Rattle.polars_arrays_flat.specs.DataType.{IsSameField, kind_of, kinds_of};
ghost use Rattle.polars_arrays_nested.specs.Types.{type_of};
ghost use Rattle.polars_arrays_nested.specs.declared.any_array.AnyArray.{List, FixedSizeList};
ghost use Rattle.polars_arrays_nested.specs.declared.any_array.AnyArray.{Struct, Dictionary};

use crate::any_array::{AnyArray, each_array};
use crate::dictionary::DictionaryArray;
use crate::fixed_size_list::FixedSizeListArray;
use crate::list::ListArray;
use crate::struct_array::StructArray;
use polars_arrays_bits::error::ComputeError;
use polars_arrays_flat::data_type::{ArrowDataType, Field};
use std::alloc::Global;

impl ListArray {
    /// Returns the array's type. The error is `Memory`.
    #[cycle(dtypes)]
    pub fn dtype(&self, alloc: Global) -> Result<ArrowDataType, ComputeError>
        ensures { MatchResult result (λ dtype. kind_of dtype ≡ type_of (List self.now)) IsMemory }
    {
        let item = self.values().dtype(alloc)?;
        let item = Box::new(alloc, item)?;
        if self.offsets().is_large() {
            Ok(ArrowDataType::LargeList(item))
        } else {
            Ok(ArrowDataType::List(item))
        }
    }
}

impl FixedSizeListArray {
    /// Returns the array's type. The error is `Memory`.
    #[cycle(dtypes)]
    pub fn dtype(&self, alloc: Global) -> Result<ArrowDataType, ComputeError>
        ensures { MatchResult result
            (λ dtype. kind_of dtype ≡ type_of (FixedSizeList self.now)) IsMemory }
    {
        let item = self.values().dtype(alloc)?;
        let item = Box::new(alloc, item)?;
        Ok(ArrowDataType::FixedSizeList(item, self.width()))
    }
}

impl StructArray {
    /// Returns the array's type. The error is `Memory`.
    #[tactic(auto, using(crate::proofs::FieldKinds::struct_types))]
    pub fn dtype(&self, alloc: Global) -> Result<ArrowDataType, ComputeError>
        ensures { MatchResult result (λ dtype. kind_of dtype ≡ type_of (Struct self.now)) IsMemory }
    {
        let fields = clone_fields(alloc, self.fields())?;
        Ok(ArrowDataType::Struct(fields))
    }
}

impl DictionaryArray {
    /// Returns the array's type. The error is `Memory`.
    #[cycle(dtypes)]
    pub fn dtype(&self, alloc: Global) -> Result<ArrowDataType, ComputeError>
        ensures { MatchResult result
            (λ dtype. kind_of dtype ≡ type_of (Dictionary self.now)) IsMemory }
    {
        let entry = self.values().dtype(alloc)?;
        let entry = Box::new(alloc, entry)?;
        Ok(ArrowDataType::Dictionary(self.keys().key_type(), entry))
    }
}

impl AnyArray {
    /// Returns the array's type. The error is `Memory`.
    #[cycle(dtypes)]
    pub fn dtype(&self, alloc: Global) -> Result<ArrowDataType, ComputeError>
        ensures { MatchResult result (λ dtype. kind_of dtype ≡ type_of self.now) IsMemory }
    {
        each_array!(self, array => array.dtype(alloc))
    }
}

/// Clones a type. The error is `Memory`.
#[cycle(clone_types)]
pub fn clone_type(alloc: Global, dtype: &ArrowDataType) -> Result<ArrowDataType, ComputeError>
    ensures { MatchResult result (λ copy. kind_of copy ≡ kind_of dtype.now) IsMemory }
{
    match dtype {
        ArrowDataType::Null => Ok(ArrowDataType::Null),
        ArrowDataType::Boolean => Ok(ArrowDataType::Boolean),
        ArrowDataType::Int8 => Ok(ArrowDataType::Int8),
        ArrowDataType::Int16 => Ok(ArrowDataType::Int16),
        ArrowDataType::Int32 => Ok(ArrowDataType::Int32),
        ArrowDataType::Int64 => Ok(ArrowDataType::Int64),
        ArrowDataType::Int128 => Ok(ArrowDataType::Int128),
        ArrowDataType::UInt8 => Ok(ArrowDataType::UInt8),
        ArrowDataType::UInt16 => Ok(ArrowDataType::UInt16),
        ArrowDataType::UInt32 => Ok(ArrowDataType::UInt32),
        ArrowDataType::UInt64 => Ok(ArrowDataType::UInt64),
        ArrowDataType::UInt128 => Ok(ArrowDataType::UInt128),
        ArrowDataType::Binary => Ok(ArrowDataType::Binary),
        ArrowDataType::LargeBinary => Ok(ArrowDataType::LargeBinary),
        ArrowDataType::Utf8 => Ok(ArrowDataType::Utf8),
        ArrowDataType::LargeUtf8 => Ok(ArrowDataType::LargeUtf8),
        ArrowDataType::BinaryView => Ok(ArrowDataType::BinaryView),
        ArrowDataType::Utf8View => Ok(ArrowDataType::Utf8View),
        ArrowDataType::FixedSizeBinary(size) => Ok(ArrowDataType::FixedSizeBinary(*size)),
        ArrowDataType::List(item) => Ok(ArrowDataType::List(boxed_type(alloc, item)?)),
        ArrowDataType::LargeList(item) => Ok(ArrowDataType::LargeList(boxed_type(alloc, item)?)),
        ArrowDataType::FixedSizeList(item, width) => {
            let item = boxed_type(alloc, item)?;
            Ok(ArrowDataType::FixedSizeList(item, *width))
        }
        ArrowDataType::Struct(fields) => Ok(ArrowDataType::Struct(clone_fields(alloc, fields)?)),
        ArrowDataType::Dictionary(keys, entry) => {
            let entry = boxed_type(alloc, entry)?;
            Ok(ArrowDataType::Dictionary(*keys, entry))
        }
    }
}

// Clones a type into a new box. The error is `Memory`.
#[cycle(clone_types)]
fn boxed_type(alloc: Global, dtype: &ArrowDataType) -> Result<Box<ArrowDataType>, ComputeError>
    ensures { MatchResult result (λ copy. kind_of copy.value ≡ kind_of dtype.now) IsMemory }
{
    let copy = clone_type(alloc, dtype)?;
    let copy = Box::new(alloc, copy)?;
    Ok(copy)
}

/// Clones a list of fields, with their names and types. The error is `Memory`.
#[cycle(clone_types)]
pub fn clone_fields(alloc: Global, fields: &[Field]) -> Result<Vec<Field>, ComputeError>
    ensures { MatchResult result (λ copies. kinds_of copies.items ≡ kinds_of fields.now) IsMemory }
{
    let mut copies = Vec::new(alloc);
    for field in fields {
        let copy = clone_field(alloc, field)?;
        copies.push(copy)?;
    }
    Ok(copies)
}

// Clones a field, with its name and type. The error is `Memory`.
#[cycle(clone_types)]
fn clone_field(alloc: Global, field: &Field) -> Result<Field, ComputeError>
    ensures { MatchResult result (λ copy. IsSameField copy field.now) IsMemory }
{
    let name = field.name.clone()?;
    let dtype = clone_type(alloc, &field.dtype)?;
    Ok(Field { name, dtype })
}
