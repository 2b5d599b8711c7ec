//! Calls in a list, and places for their answers.
use crate::fault::WatchFault;
use crate::report::Report;
use search::least_costs::MOST_ROWS;

/// A report is made on the first rows of a table, the first places of a waiting list and the first places of a plan place,
/// as many as there are of each where it names more.
#[derive(Clone, Copy, PartialEq, Eq, Debug)]
pub struct Request {
    pub goal: u8,
    pub rows: usize,
    pub waiting: usize,
    pub places: usize,
}

#[derive(Clone, Copy, PartialEq, Eq, Debug)]
pub enum Call {
    Note(u8),
    Retract,
    Report(Request),
}

/// What a call answers: a report where it is one, or why it was refused.
pub type Answer = Result<Option<Report>, WatchFault>;

/// A place for an answer, and for the plan of a report. A plan has fewer actions than a table may have rows.
/// The plan's length stands in the report: the place is lent, so that no call allocates one.
#[derive(Clone, Copy)]
pub struct Slot {
    pub answer: Answer,
    pub plan: [u8; MOST_ROWS],
}
