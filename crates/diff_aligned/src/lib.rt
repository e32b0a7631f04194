//! Reports in aligned columns, for terminals.
#![tactic(auto)]

pub mod aligned;
mod counts;
pub mod laws;
mod line;
mod paragraphs;
mod pieces;
mod rooms;
mod rows;
mod shown;
mod texts;
