//! A move of a field map.
use crate::place::Place;

/// It runs at the place that it leaves, and the place that it reaches comes next.
#[derive(Clone, Copy, PartialEq, Eq, Debug)]
pub struct Move {
    pub from: Place,
    pub to: Place,
    pub cost: u16,
    /// the console always logs a marked move
    pub marked: bool,
}
