//! Domains of either kind, from the bytes of their files.
#![tactic(auto)]

pub mod any_domain;
pub mod any_file;
pub mod fault;
