//! Plans, the logs that they carry, and what a log tells of a goal: definitions and their laws, and the verdict.
#![tactic(auto)]

pub mod verdict;
