//! The fields that a record may have.
ghost use Rattle.std.specs.Prelude.{◌≡◌, ◌<◌, ◌≤◌, ◌↔◌, IsTrue, length};
ghost use Rattle.files.specs.Formats.{bytes_of, absent_of, limit_of};
ghost use Rattle.files.specs.Contents.{is_written, may_hold, field_bytes};
ghost use Rattle.files.specs.Writing.{Wrote};

use crate::numbers::{has_bits, write_number};
use domain::limits::MOST_COST;

#[derive(Clone, Copy, PartialEq, Eq, Debug)]
pub enum Field {
    /// a set of fluents: bit i of the value tells of fluent i
    Set,
    /// a place, by its number
    Place,
    /// the cost of an action
    Cost,
}

impl Field {
    // How many bytes it takes in a file.
    pub(crate) fn bytes(self) -> usize
        ensures { result ≡ bytes_of self }
    {
        match self {
            Field::Set => 7,
            Field::Place => 1,
            Field::Cost => 2,
        }
    }

    // The value that it has when it is left out.
    pub(crate) fn absent(self) -> u64
        ensures { result ≡ absent_of self }
    {
        match self {
            Field::Set => 0,
            Field::Place => 0,
            Field::Cost => 1,
        }
    }

    // Whether the value is one that it can have, in a domain of so many fluents or places.
    pub(crate) fn in_range(self, size: u8, value: u64) -> bool
        ensures { IsTrue result ↔ (value < limit_of size self) }
    {
        match self {
            Field::Set => has_bits(value, size),
            Field::Place => value < u64::from(size),
            Field::Cost => value <= u64::from(MOST_COST),
        }
    }

    // Whether the value is written, and not left out.
    pub(crate) fn is_written(self, value: u64) -> bool
        ensures { result ≡ is_written self value }
    {
        value != self.absent()
    }

    // Whether a field that is written may hold the value.
    pub(crate) fn may_hold(self, size: u8, value: u64) -> bool
        ensures { result ≡ may_hold size self value }
    {
        self.in_range(size, value) && self.is_written(value)
    }

    // The value into the front of the place, and nothing where it is the absent one; the answer is how many bytes that takes.
    pub(crate) fn write(self, value: u64, place: &mut [u8]) -> usize
        requires { length (field_bytes self value) ≤ length place.old }
        ensures { Wrote (field_bytes self value) place.old place.new result }
    {
        if !self.is_written(value) {
            return 0;
        }
        let count = self.bytes();
        write_number(value, &mut place[..count]);
        count
    }
}
