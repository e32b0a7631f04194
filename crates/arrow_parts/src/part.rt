//! The parts of lent arrays, and their kinds.

ghost use Rattle.std.specs.Prelude.{◌≡◌};
ghost use Rattle.arrow_parts.specs.Kinds.{kind_number};

/// Lent bytes, such as a buffer of a view array.
#[repr(C)]
pub struct Bytes<'a> {
    pub bytes: &'a [u8],
}

/// One array of a tree of nested arrays. Its slices are lent. Slices that its kind does not use are
/// empty.
///
/// The parts of a tree come in pre-order: a list before its items, a struct before its columns in
/// their order, a dictionary before its entries. In C a slice is a pointer, which is never null,
/// and a count of elements.
#[repr(C)]
pub struct Part<'a> {
    /// The number of a `PartKind`.
    pub kind: u32,
    /// The number of child arrays: 1 for lists and dictionaries, the number of columns for a
    /// struct. If a part of another kind has child arrays, they are ignored.
    pub children: u32,
    /// The number of rows.
    pub rows: usize,
    /// The number of bytes or items in each row of a `FixedSizeBinary` or `FixedSizeList`.
    pub width: usize,
    /// The index of the first row's bit in `present`, and in `u8s` if the rows are truth values.
    pub first_bit: usize,
    /// The offset, in a string or list array, of the first lent byte or item. An offset `o` refers
    /// to index `o - base` of the lent bytes or items.
    pub base: usize,
    /// The name of the part. It has to be UTF-8, and is used only if the part is a column of a
    /// struct.
    pub name: &'a [u8],
    /// The validity: a bit for each row, 1 if the row is present. Empty if all rows are present.
    pub present: &'a [u8],
    /// Numbers or keys of 8 bits.
    pub i8s: &'a [i8],
    /// Numbers or keys of 16 bits.
    pub i16s: &'a [i16],
    /// Numbers, keys or offsets of 32 bits.
    pub i32s: &'a [i32],
    /// Numbers, keys or offsets of 64 bits.
    pub i64s: &'a [i64],
    /// Numbers, keys, the bytes of strings, truth values as bits, or views of 16 bytes each.
    pub u8s: &'a [u8],
    /// Numbers or keys of 16 bits.
    pub u16s: &'a [u16],
    /// Numbers or keys of 32 bits.
    pub u32s: &'a [u32],
    /// Numbers or keys of 64 bits, or the low and the high word of each number of 128 bits.
    pub u64s: &'a [u64],
    /// The buffers with the rows of views that are longer than 12 bytes.
    pub buffers: &'a [Bytes<'a>],
}

/// The kind of a part: its type, and the layout of its rows. The kinds have the numbers 1 to 31.
/// The kinds of dictionaries, such as `DictInt8`, are named by the type of the keys.
#[derive(Clone, Copy, PartialEq, Eq, Debug)]
pub enum PartKind {
    /// Number 1.
    Null,
    /// Number 2. Each kind below has the number after that of the kind above it.
    Boolean,
    Int8,
    Int16,
    Int32,
    Int64,
    Int128,
    UInt8,
    UInt16,
    UInt32,
    UInt64,
    UInt128,
    Binary,
    LargeBinary,
    Utf8,
    LargeUtf8,
    FixedSizeBinary,
    List,
    LargeList,
    FixedSizeList,
    Struct,
    DictInt8,
    DictInt16,
    DictInt32,
    DictInt64,
    DictUInt8,
    DictUInt16,
    DictUInt32,
    DictUInt64,
    BinaryView,
    /// Number 31, the last.
    Utf8View,
}

impl PartKind {
    /// Returns the kind that has the number `number`, or `None` if `number` is not in 1 to 31.
    pub fn of(number: u32) -> Option<PartKind>
        ensures { result ≡ kind_number number }
    {
        match number {
            1 => Some(PartKind::Null),
            2 => Some(PartKind::Boolean),
            3 => Some(PartKind::Int8),
            4 => Some(PartKind::Int16),
            5 => Some(PartKind::Int32),
            6 => Some(PartKind::Int64),
            7 => Some(PartKind::Int128),
            8 => Some(PartKind::UInt8),
            9 => Some(PartKind::UInt16),
            10 => Some(PartKind::UInt32),
            11 => Some(PartKind::UInt64),
            12 => Some(PartKind::UInt128),
            13 => Some(PartKind::Binary),
            14 => Some(PartKind::LargeBinary),
            15 => Some(PartKind::Utf8),
            16 => Some(PartKind::LargeUtf8),
            17 => Some(PartKind::FixedSizeBinary),
            18 => Some(PartKind::List),
            19 => Some(PartKind::LargeList),
            20 => Some(PartKind::FixedSizeList),
            21 => Some(PartKind::Struct),
            22 => Some(PartKind::DictInt8),
            23 => Some(PartKind::DictInt16),
            24 => Some(PartKind::DictInt32),
            25 => Some(PartKind::DictInt64),
            26 => Some(PartKind::DictUInt8),
            27 => Some(PartKind::DictUInt16),
            28 => Some(PartKind::DictUInt32),
            29 => Some(PartKind::DictUInt64),
            30 => Some(PartKind::BinaryView),
            31 => Some(PartKind::Utf8View),
            _ => None,
        }
    }
}
