//! The board: a row for each goal, with what the last report on it said.
#![tactic(auto)]

pub mod board;
pub mod row;
