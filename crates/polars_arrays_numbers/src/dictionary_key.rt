//! The types of a dictionary's keys.
ghost use Rattle.std.specs.Prelude.{◌≡◌};
ghost use Rattle.polars_arrays_numbers.specs.Naturals.{natural_of};

use crate::native_type::NativeType;

/// A type of dictionary keys: an integer type of 8 to 64 bits, signed or unsigned.
pub trait DictionaryKey: NativeType {
    /// Returns the key as an index of an entry, or `None` if the key is negative.
    fn to_entry(self) -> Option<usize>
        ensures { result ≡ natural_of (Self.value self) };
}

impl DictionaryKey for i8 {
    fn to_entry(self) -> Option<usize> {
        i64::from(self).to_entry()
    }
}

impl DictionaryKey for i16 {
    fn to_entry(self) -> Option<usize> {
        i64::from(self).to_entry()
    }
}

impl DictionaryKey for i32 {
    fn to_entry(self) -> Option<usize> {
        i64::from(self).to_entry()
    }
}

impl DictionaryKey for i64 {
    fn to_entry(self) -> Option<usize> {
        usize::try_from(self).ok()
    }
}

impl DictionaryKey for u8 {
    fn to_entry(self) -> Option<usize> {
        u64::from(self).to_entry()
    }
}

impl DictionaryKey for u16 {
    fn to_entry(self) -> Option<usize> {
        u64::from(self).to_entry()
    }
}

impl DictionaryKey for u32 {
    fn to_entry(self) -> Option<usize> {
        u64::from(self).to_entry()
    }
}

impl DictionaryKey for u64 {
    fn to_entry(self) -> Option<usize> {
        Some(self as usize)
    }
}
