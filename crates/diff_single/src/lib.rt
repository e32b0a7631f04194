//! Writes the line of a single difference. Only the rows of this difference are needed, so no whole
//! table has to be in memory.
#![tactic(auto)]

pub mod changes;
mod forms;
pub mod frame;
pub mod lines;
pub mod row;
mod sides;
