//! Nested arrays: lists, lists of one fixed size, structs and dictionaries. Also arrays of any
//! kind.
#![tactic(auto)]

pub mod any_array;
pub mod data_types;
pub mod dict_keys;
pub mod dictionary;
pub mod fixed_size_list;
pub mod laws;
pub mod list;
pub mod list_offsets;
pub mod masks;
pub mod struct_array;
pub mod types;
