//! Arrays that another program lends, as a list of parts in the layout of the Arrow format. Bits
//! are read from lent bytes, and written into lent words.
#![tactic(auto)]

pub mod bits;
pub mod part;
pub mod refused;
pub mod written;
