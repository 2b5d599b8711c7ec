//! Reports on goals.
ghost use Rattle.std.specs.Prelude.{◌≡◌};
ghost use Rattle.search.specs.Answers.{sizes_of};
ghost use Rattle.watch.specs.Book.{present};
ghost use Rattle.watch.specs.Calls.{report};
ghost use Rattle.watch.specs.Reporting.{Reported, TablesStay, report_answer};
ghost use Rattle.watch.specs.Runs.{RowsAfter, Then};

use crate::fault::WatchFault;
use crate::report::Report;
use crate::watch::Watch;
use board::row::BoardRow;
use domain::Domain;
use plans::verdict::Verdict;
use search::entry::Entry;
use search::least_costs::least_costs;
use table::row::Row;

impl<D: Domain> Watch<D> {
    // The verdict on the goal for the present log, both least costs, and a plan in the front of the plan place. The goal's row is rewritten, and no other.
    // The plan is a cheapest whole one where the goal stands or costs more, a cheapest admitted one where it is cut off, and none where there is none.
    // The three places are lent one by one, as to the search.
    pub(crate) fn report(
        &mut self,
        goal: u8,
        table: &mut [Row],
        waiting: &mut [Entry],
        plan: &mut [u8],
    ) -> Result<Report, WatchFault>
        ensures reported { Reported (present (D.meaning self.old.domain) self.old.log) goal (sizes_of table.old waiting.old plan.old) plan.old plan.new result }
        ensures rows { RowsAfter self.old.rows (report goal (sizes_of table.old waiting.old plan.old), report_answer plan.new result) self.new.rows }
        ensures domain { self.new.domain ≡ self.old.domain }
        ensures log { self.new.log ≡ self.old.log }
        ensures tables { TablesStay result (table.new ≡ table.old) }
        ensures waiting { TablesStay result (waiting.new ≡ waiting.old) }
        ensures law { Then (D.meaning self.old.domain) (report goal (sizes_of table.old waiting.old plan.old), report_answer plan.new result) self.old.log self.old.rows self.new.log self.new.rows }
    {
        let (costs, length) = least_costs(&self.watched, goal, table, waiting, plan)?;
        // the board has a row for every goal, and a row of two costs agrees with itself
        let _ = self.board.store(goal, BoardRow::judged(costs));
        let (without, with) = costs;
        Ok(Report {
            verdict: Verdict::of(costs),
            without,
            with,
            length,
        })
    }
}
