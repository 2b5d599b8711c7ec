//! Tests that need several crates.
#![tactic(auto)]

#[cfg(test)]
mod loaded_domains;
#[cfg(test)]
mod searches;
#[cfg(test)]
mod watched_domains;
