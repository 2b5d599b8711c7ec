//! The rows of a state table. They name one another by their indices: the table is lent, so nothing in it is allocated, and no row moves.

/// An action that leads on from the state of a row.
#[derive(Clone, Copy)]
pub struct Step {
    pub from: usize,
    pub action: u8,
}

/// A state that a search has come to, and the cheapest way to it that is known.
#[derive(Clone, Copy, Default)]
pub struct Node {
    pub state: u64,
    /// how many actions the way has
    pub steps: usize,
    /// the last action of the way, and where it leads on from; none at the start
    pub last: Option<Step>,
    /// what the way costs; it stands beside the mark, since fields lie as they are written, and so a row is smaller
    pub cost: u32,
    /// no cheaper way can come
    pub settled: bool,
}

// Rows are put into chains by their states, so that a state is found without a walk over the table.
#[derive(Clone, Copy, Default)]
pub(crate) struct Link {
    // the row that was the latest to join the chain of this row's number
    pub(crate) head: Option<usize>,
    // the row that joined the chain of this row's state before it
    pub(crate) next: Option<usize>,
}

/// A table is filled with default rows before it is lent; what they hold is of no account.
#[derive(Clone, Copy, Default)]
pub struct Row {
    pub node: Node,
    /// where the state stands in the waiting list; it means nothing once the node is settled.
    /// An enum of both would be written whole at every move of the heap.
    pub place: usize,
    pub(crate) link: Link,
}
