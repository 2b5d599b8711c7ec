//! A move and a goal as records of a file.
ghost use Rattle.std.specs.Prelude.{◌≡◌};
ghost use Rattle.maps.specs.MapRecords.{place_of, move_entry, entry_move, goal_entry, entry_goal};

use crate::moves::Move;
use crate::place::Place;
use files::record::{Record, Values, first_four, value_at};

// The place that a value stands for; a file's places take eight bits.
fn place_of(value: u64) -> Place
    ensures { result ≡ place_of value }
{
    Place(u8::try_from(value).unwrap_or(u8::MAX))
}

impl Record for Move {
    ghost written = { move_entry };

    ghost made = { entry_move };

    fn from_values(values: &[u64], marked: bool) -> Move {
        let [from, to, cost, _] = first_four(values);
        Move {
            from: place_of(from),
            to: place_of(to),
            cost: u16::try_from(cost).unwrap_or(u16::MAX),
            marked,
        }
    }

    fn value(&self, field: usize) -> u64 {
        value_at(&self.values(), field)
    }

    fn values(&self) -> Values {
        [
            u64::from(self.from),
            u64::from(self.to),
            u64::from(self.cost),
            0,
        ]
    }

    fn is_marked(&self) -> bool {
        self.marked
    }
}

impl Record for Place {
    ghost written = { goal_entry };

    ghost made = { entry_goal };

    fn from_values(values: &[u64], _marked: bool) -> Place {
        let [place, ..] = first_four(values);
        place_of(place)
    }

    fn value(&self, field: usize) -> u64 {
        value_at(&self.values(), field)
    }

    fn values(&self) -> Values {
        [u64::from(*self), 0, 0, 0]
    }

    fn is_marked(&self) -> bool {
        false
    }
}
