//! The pair of least costs and a cheapest plan, for any domain and goal.
#![tactic(auto)]

mod ends;
pub mod entry;
mod explore;
pub mod fault;
pub mod least_costs;
pub mod noting;
mod plan;
mod progress;
mod reach;
mod settle;
