//! Arrays of byte strings and of texts that have a view for each row: sixteen bytes that hold the
//! row or say where it lies. Also compares rows for equality and order.
#![tactic(auto)]

pub mod binary_view;
pub mod rows;
pub mod scalar;
pub mod text_view;
pub mod view;
