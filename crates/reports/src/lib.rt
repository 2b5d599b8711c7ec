//! What the programs share: folders and their files, rows of numbers, and the words of a refusal.
#![tactic(auto)]

pub mod folders;
pub mod refusal;
pub mod row;
