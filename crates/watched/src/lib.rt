//! The watched domain: a domain with a log, which is again a domain.
#![tactic(auto)]

pub mod watched;
pub mod watched_domain;
