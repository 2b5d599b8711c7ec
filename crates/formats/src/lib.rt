//! The formats of domain files, and the parts of a domain that such a file holds.
#![tactic(auto)]

pub mod format;
pub mod parts;
