//! Arrays without child arrays, types of arrays, masks, and comparisons of byte strings.
#![tactic(auto)]

pub mod array;
pub mod arrow_type;
pub mod boolean;
pub mod byte_blocks;
pub mod byte_equality;
pub mod byte_order;
pub mod byte_rows;
pub mod data_type;
mod fill;
pub mod mask;
pub mod null;
pub mod primitive;
pub mod validity;
