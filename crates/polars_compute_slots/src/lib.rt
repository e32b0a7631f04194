//! Records which values of a range occur in arrays. There is a slot (a flag) for each value of the
//! range, in ascending order, and a last slot for null.
#![tactic(auto)]

pub mod accepting;
pub mod listing;
pub mod marking;
pub mod number;
pub mod reading;
pub mod slots;
pub mod span;
