//! The observation log.
#![tactic(auto)]

pub mod following;
pub mod log;
#[cfg(test)]
mod log_tests;
