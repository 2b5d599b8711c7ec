//! A report in a list of calls on one watch.
ghost use Rattle.std.specs.Prelude.{◌≡◌};
ghost use Rattle.search.specs.Answers.{sizes_of};
ghost use Rattle.watch.specs.Lists.{event_of};
ghost use Rattle.watch.specs.Runs.{Then};
ghost use Rattle.watch.specs.declared.call.Call.TheVariants as calls;

use crate::call::{Request, Slot};
use crate::watch::Watch;
use domain::Domain;
use search::entry::Entry;
use table::row::Row;

impl<D: Domain> Watch<D> {
    // A report on as much of the places as it names.
    fn report_on(
        &mut self,
        request: Request,
        table: &mut [Row],
        waiting: &mut [Entry],
        slot: &mut Slot,
    )
        ensures domain { self.new.domain ≡ self.old.domain }
        ensures law { Then (D.meaning self.old.domain) (event_of (sizes_of table.old waiting.old slot.old.plan) (calls.Report request) slot.new) self.old.log self.old.rows self.new.log self.new.rows }
    {
        let rows = request.rows.min(table.len());
        let entries = request.waiting.min(waiting.len());
        let places = request.places.min(slot.plan.len());
        let outcome = self.report(
            request.goal,
            &mut table[..rows],
            &mut waiting[..entries],
            &mut slot.plan[..places],
        );
        slot.answer = outcome.map(Some);
    }
}
