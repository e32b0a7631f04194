//! Errors and warnings of the commands of the program `dunkelva`: why files can't be compared, and
//! what in them or in the options is likely to be a mistake.
//!
//! A file is read again for the names, keys and paths in a message. The functions that return a
//! `Result` may also fail because an allocation fails.
#![tactic(auto)]

mod columns;
pub mod commas;
mod document_key;
mod key_columns;
pub mod trouble;
pub mod unfound;
