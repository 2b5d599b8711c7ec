//! The tables that a search works in, as one value.
#![tactic(auto)]

pub mod fault;
pub mod tables;
