//! Set-up cards: a planning domain whose states are sets of fluents.
#![tactic(auto)]

pub mod action;
pub mod action_record;
pub mod card;
pub mod card_domain;
pub mod card_file;
pub mod format;
pub mod new_card;
pub mod parts;
