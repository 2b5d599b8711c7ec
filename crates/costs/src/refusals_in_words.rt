//! The words of a search or a log that is refused.
use domain::fault::{LogFault, Numbered};
use search::fault::SearchFault;
use std::fmt;

// What is asked where the fault stands. The trait is this program's own, since both faults are of other crates.
pub(crate) trait Asked: Numbered + Copy {
    fn question(self) -> &'static str;
}

impl Asked for SearchFault {
    fn question(self) -> &'static str {
        match self {
            SearchFault::Goal => "is the goal below the count of goals?",
            SearchFault::Tables => "are the tables long enough?",
            SearchFault::Rows => "are the reachable states no more than the rows?",
        }
    }
}

impl Asked for LogFault {
    fn question(self) -> &'static str {
        match self {
            LogFault::Action => "is every entry below the count of actions?",
            LogFault::Width => "is the domain at most 55 wide?",
            LogFault::Full => "has the log at most 20 entries?",
            LogFault::Empty => "is there an entry?",
        }
    }
}

// The number of the fault, and what was asked.
#[derive(Clone, Copy)]
pub(crate) struct Refused<F>(pub(crate) F);

impl<F: Asked> fmt::Display for Refused<F> {
    fn fmt<W: fmt::Write>(&self, f: &mut fmt::Formatter<W>) -> fmt::Result {
        let number = self.0.number();
        let asked = self.0.question();
        write!(f, "refused {number}: {asked}")
    }
}
