//! The least and the greatest present row of an array (its extremes).
#![tactic(auto)]

mod booleans;
pub mod borrowed;
mod bytes;
pub mod dispatch;
mod extreme;
mod first_bytes;
pub mod kernel;
mod numbers;
pub mod places;
pub mod preference;
pub mod scalar;
mod view_places;
mod views;
