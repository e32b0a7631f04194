//! Laws about comparing tables in several ranges of keys. If two tables are split in such a way
//! that the first parts have no key in common with the second parts, the comparison of the tables
//! is the comparison of the first parts followed by that of the second parts. Tables that are
//! sorted by key can be split at any key.
#![tactic(auto)]

pub mod laws;
