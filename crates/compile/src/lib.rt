//! Compiling a log into a card, which then has the log in its fluents, its actions and its goals. The call is not public yet.
#![tactic(auto)]

mod accepted;
pub mod compile;
pub mod fault;
mod parts;
mod questions;
