//! The rows of a table note where their states stand in the waiting list.
ghost use Rattle.search.specs.Entries.{noted, apart, Kept};
ghost use Rattle.std.proofs.Common.{rules};

use crate::entry::Entry;
use heap::tracks::Tracks;
use table::row::Row;

impl Tracks<Entry> for Row {
    ghost noted = { noted };

    ghost apart = { apart };

    ghost kept = { Kept };

    ghost same = { Prim.search rules };

    ghost chain = { Prim.search rules };

    fn moved(rows: &mut [Row], entry: &Entry, place: usize) {
        if entry.row < rows.len() {
            rows[entry.row].place = place;
        }
    }
}
