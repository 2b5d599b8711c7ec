//! Why a search is refused.
ghost use Rattle.search.specs.Faults.{search_number};

use domain::fault::Numbered;

#[derive(Clone, Copy, PartialEq, Eq, Debug)]
pub enum SearchFault {
    /// the domain has no goal of that number
    Goal = 15,
    /// the table has no row or more than MOST_ROWS, or the waiting list or the plan place is shorter
    Tables = 16,
    /// more states can be reached than there are rows
    Rows = 17,
}

impl Numbered for SearchFault {
    ghost numbered = { search_number };

    fn number(self) -> u8 {
        self as u8
    }
}
