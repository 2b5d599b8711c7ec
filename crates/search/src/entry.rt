//! The entries of the waiting list.
ghost use Rattle.std.specs.Prelude.{◌≡◌};
ghost use Rattle.search.specs.Entries.{entry_of};

use table::row::Node;

/// A state that waits to be settled; the order is by cost, and then by the state's number.
#[derive(Clone, Copy, Default, PartialEq, Eq, PartialOrd, Ord)]
pub struct Entry {
    pub cost: u32,
    pub state: u64,
    /// the row of the state
    pub row: usize,
}

impl Entry {
    // The entry of a row with its node.
    pub(crate) fn new(row: usize, node: &Node) -> Entry
        ensures { result ≡ entry_of node.now row }
    {
        Entry {
            cost: node.cost,
            state: node.state,
            row,
        }
    }
}
