//! A set as a record of a file: it has one field, and no mark.
ghost use Rattle.fluents.specs.SetRecords.{set_entry, entry_set};

use crate::FluentSet;
use files::record::{Record, Values, first_four, value_at};

impl Record for FluentSet {
    ghost written = { set_entry };

    ghost made = { entry_set };

    fn from_values(values: &[u64], _marked: bool) -> FluentSet {
        let [set, ..] = first_four(values);
        FluentSet::from(set)
    }

    fn value(&self, field: usize) -> u64 {
        value_at(&self.values(), field)
    }

    fn values(&self) -> Values {
        [u64::from(*self), 0, 0, 0]
    }

    fn is_marked(&self) -> bool {
        false
    }
}
