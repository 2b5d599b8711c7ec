//! The state table of a search: rows that the caller lends, found by state.
#![tactic(auto)]

pub mod index;
pub mod row;
