//! The limits of every domain, for code; its meaning has them as `Limits`.
//! Public clauses, invariants and specs state them as numbers, since those are the definitions; code has the names, so a constant that is changed is refused.

pub const MOST_ACTIONS: u8 = 120;

pub const MOST_GOALS: u8 = 32;

/// The greatest cost of an action.
pub const MOST_COST: u16 = 60_000;

/// The greatest width of a domain that a log is kept over: the count of its entries takes five bits more.
pub const MOST_WIDTH_BELOW: u8 = 55;
