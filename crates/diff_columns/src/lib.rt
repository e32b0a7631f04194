//! Matches the columns of two tables by name, and selects those that are compared. Key columns are
//! always compared. Any other column is compared if both tables have it, the caller does not ignore
//! it, and it is among the columns that the caller chooses (by default all).
#![tactic(auto)]

mod alone;
pub mod choice;
pub mod error;
pub mod known;
pub mod layout;
mod names;
mod pairs;
mod places;
