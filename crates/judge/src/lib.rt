//! A given list of actions, judged: how far it runs, whether a log admits it, and what it carries of the log.
#![tactic(auto)]

pub mod carrying;
pub mod course;
pub mod fault;
pub mod marks;
