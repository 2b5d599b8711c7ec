//! An action of a card.
ghost use Rattle.std.specs.Prelude.{◌↔◌, IsTrue};
ghost use Rattle.cards.specs.Limits.{ActionAmong};

use domain::limits::MOST_COST;
use fluents::FluentSet;

/// It runs where all its needs hold. What it deletes is then gone, and what it adds holds.
#[derive(Clone, Copy, PartialEq, Eq, Debug)]
pub struct Action {
    pub needs: FluentSet,
    pub adds: FluentSet,
    pub deletes: FluentSet,
    pub cost: u16,
    /// the console always logs a marked action
    pub marked: bool,
}

impl Action {
    // Whether its sets have no fluents but the first ones, and its cost is within the limit.
    pub(crate) fn is_among(self, fluents: u8) -> bool
        ensures { IsTrue result ↔ ActionAmong fluents self }
    {
        self.needs.is_among(fluents)
            && self.adds.is_among(fluents)
            && self.deletes.is_among(fluents)
            && self.cost <= MOST_COST
    }
}
