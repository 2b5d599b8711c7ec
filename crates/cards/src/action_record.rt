//! An action as a record of a file.
ghost use Rattle.cards.specs.ActionRecords.{action_entry, entry_action};

use crate::action::Action;
use files::record::{Record, Values, first_four, value_at};
use fluents::FluentSet;

impl Record for Action {
    ghost written = { action_entry };

    ghost made = { entry_action };

    fn from_values(values: &[u64], marked: bool) -> Action {
        let [needs, adds, deletes, cost] = first_four(values);
        Action {
            needs: FluentSet::from(needs),
            adds: FluentSet::from(adds),
            deletes: FluentSet::from(deletes),
            cost: u16::try_from(cost).unwrap_or(u16::MAX),
            marked,
        }
    }

    fn value(&self, field: usize) -> u64 {
        value_at(&self.values(), field)
    }

    fn values(&self) -> Values {
        [
            u64::from(self.needs),
            u64::from(self.adds),
            u64::from(self.deletes),
            u64::from(self.cost),
        ]
    }

    fn is_marked(&self) -> bool {
        self.marked
    }
}
