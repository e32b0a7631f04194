//! Types of arrays.

ghost use Rattle.std.specs.Prelude.{◌≡◌, ◌↔◌, IsTrue};
ghost use Rattle.polars_arrays_flat.specs.DataType.{key_kind, kind_of, kinds_of, IsSameField};
ghost use Rattle.polars_arrays_flat.specs.Kind.{StructKind};

/// The integer type of a dictionary's keys.
#[derive(Clone, Copy, PartialEq, Eq, Debug)]
pub enum IntegerType {
    Int8,
    Int16,
    Int32,
    Int64,
    UInt8,
    UInt16,
    UInt32,
    UInt64,
}

/// The type of an array, named as in the Arrow format, except for `Int128` and `UInt128`, which
/// that format lacks. Lists have the type of their items, `FixedSizeBinary` has the number of bytes
/// per row, `FixedSizeList` the type of its items and the number of items per row, and `Dictionary`
/// the types of its keys and of its entries.
#[cycle(data_type)]
#[derive(Drop)]
pub enum ArrowDataType {
    Null,
    Boolean,
    Int8,
    Int16,
    Int32,
    Int64,
    Int128,
    UInt8,
    UInt16,
    UInt32,
    UInt64,
    UInt128,
    Binary,
    LargeBinary,
    Utf8,
    LargeUtf8,
    BinaryView,
    Utf8View,
    FixedSizeBinary(usize),
    List(Box<ArrowDataType>),
    LargeList(Box<ArrowDataType>),
    FixedSizeList(Box<ArrowDataType>, usize),
    Struct(Vec<Field>),
    Dictionary(IntegerType, Box<ArrowDataType>),
}

/// The name and the type of a struct's field.
#[cycle(data_type)]
#[derive(Drop)]
pub struct Field {
    pub name: String,
    pub dtype: ArrowDataType,
}

impl ArrowDataType {
    /// Returns whether two types are equal. Compares sizes, the types of items, keys and entries,
    /// and the names and types of fields in order, down to the leaves. Does not allocate.
    #[cycle(same_kind)]
    pub fn same_kind(&self, other: &ArrowDataType) -> bool
        ensures { IsTrue result ↔ (kind_of self.now ≡ kind_of other.now) }
    {
        match (self, other) {
            (Self::Null, Self::Null) => true,
            (Self::Boolean, Self::Boolean) => true,
            (Self::Int8, Self::Int8) => true,
            (Self::Int16, Self::Int16) => true,
            (Self::Int32, Self::Int32) => true,
            (Self::Int64, Self::Int64) => true,
            (Self::Int128, Self::Int128) => true,
            (Self::UInt8, Self::UInt8) => true,
            (Self::UInt16, Self::UInt16) => true,
            (Self::UInt32, Self::UInt32) => true,
            (Self::UInt64, Self::UInt64) => true,
            (Self::UInt128, Self::UInt128) => true,
            (Self::Binary, Self::Binary) => true,
            (Self::LargeBinary, Self::LargeBinary) => true,
            (Self::Utf8, Self::Utf8) => true,
            (Self::LargeUtf8, Self::LargeUtf8) => true,
            (Self::BinaryView, Self::BinaryView) => true,
            (Self::Utf8View, Self::Utf8View) => true,
            (Self::FixedSizeBinary(size), Self::FixedSizeBinary(other)) => *size == *other,
            (Self::List(item), Self::List(other)) => item.same_kind(other),
            (Self::LargeList(item), Self::LargeList(other)) => item.same_kind(other),
            (Self::FixedSizeList(item, size), Self::FixedSizeList(other, other_size)) => {
                *size == *other_size && item.same_kind(other)
            }
            (Self::Struct(fields), _) => is_struct_of(fields, other),
            (Self::Dictionary(keys, entry), Self::Dictionary(other_keys, other)) => {
                same_keys(*keys, *other_keys) && entry.same_kind(other)
            }
            _ => false,
        }
    }
}

impl PartialEq for ArrowDataType {
    ghost use Rattle.polars_arrays_flat.specs.KindEquality.{dtype_eq};
    ghost use Rattle.polars_arrays_flat.specs.KindEqualityLaws.{dtype_eq-laws};

    ghost eq = { dtype_eq };

    ghost laws = { dtype_eq-laws };

    fn eq(&self, other: &ArrowDataType) -> bool
        ensures answer { result ≡ dtype_eq self.now other.now }
        ensures same { IsTrue result ↔ (kind_of self.now ≡ kind_of other.now) }
    {
        self.same_kind(other)
    }
}

impl Field {
    /// Returns whether two fields have equal names, byte for byte, and equal types.
    #[cycle(same_kind)]
    pub fn same_field(&self, other: &Field) -> bool
        ensures { IsTrue result ↔ IsSameField self.now other.now }
    {
        same_text(self.name.as_str(), other.name.as_str()) && self.dtype.same_kind(&other.dtype)
    }
}

impl PartialEq for Field {
    ghost use Rattle.polars_arrays_flat.specs.KindEquality.{field_eq};
    ghost use Rattle.polars_arrays_flat.specs.KindEqualityLaws.{field_eq-laws};

    ghost eq = { field_eq };

    ghost laws = { field_eq-laws };

    fn eq(&self, other: &Field) -> bool
        ensures answer { result ≡ field_eq self.now other.now }
        ensures same { IsTrue result ↔ IsSameField self.now other.now }
    {
        self.same_field(other)
    }
}

/// Returns whether `dtype` is the type of a struct with exactly these fields, in the same order.
#[cycle(same_kind)]
pub fn is_struct_of(fields: &[Field], dtype: &ArrowDataType) -> bool
    ensures { IsTrue result ↔ (StructKind (kinds_of fields.now) ≡ kind_of dtype.now) }
{
    match dtype {
        ArrowDataType::Struct(others) => same_fields(fields, others),
        _ => false,
    }
}

/// Returns whether two lists of fields have the same length, the same names and the same types, in
/// the same order.
#[cycle(same_kind)]
pub fn same_fields(left: &[Field], right: &[Field]) -> bool
    ensures { IsTrue result ↔ (kinds_of left.now ≡ kinds_of right.now) }
{
    if left.len() != right.len() {
        return false;
    }
    for i in 0..left.len() {
        if !left[i].same_field(&right[i]) {
            return false;
        }
    }
    true
}

// Returns whether two texts are equal.
fn same_text(left: &str, right: &str) -> bool
    ensures { IsTrue result ↔ (left.now ≡ right.now) }
{
    left == right
}

/// Returns whether two types of keys are equal.
pub fn same_keys(left: IntegerType, right: IntegerType) -> bool
    ensures { IsTrue result ↔ (key_kind left ≡ key_kind right) }
{
    left == right
}
