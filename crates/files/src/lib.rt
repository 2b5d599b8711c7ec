//! Domain files: the two formats, read and written by one set of functions.
#![tactic(auto)]

mod cursor;
mod field;
pub mod file;
mod header;
pub mod kind;
mod layout;
pub mod numbers;
pub mod read_file;
pub mod record;
pub mod write_file;
