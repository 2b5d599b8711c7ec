//! Field maps: a planning domain whose states are places.
#![tactic(auto)]

pub mod field_map;
pub mod format;
pub mod map_domain;
pub mod map_file;
pub mod moves;
pub mod parts;
pub mod place;
pub mod records;
