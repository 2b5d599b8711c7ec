//! The calls on a watch that change its log.
ghost use Rattle.std.specs.Prelude.{◌≡◌};
ghost use Rattle.watched.specs.Noting.{add_outcome, drop_outcome};
ghost use Rattle.watch.specs.Book.{log_after};
ghost use Rattle.watch.specs.Calls.{note, retract};
ghost use Rattle.watch.specs.Faults.{watch_number, of_log};
ghost use Rattle.watch.specs.Reports.{numbered};
ghost use Rattle.watch.specs.Runs.{RowsAfter, Then};

use crate::fault::WatchFault;
use crate::watch::Watch;
use domain::Domain;

impl<D: Domain> Watch<D> {
    // Notes an action that was seen: it is appended to the log, and every row is opened.
    pub(crate) fn note(&mut self, action: u8) -> Result<(), WatchFault>
        ensures value { result ≡ of_log (add_outcome (D.meaning self.old.domain) self.old.log action) }
        ensures log { self.new.log ≡ log_after (D.meaning self.old.domain) self.old.log (note action) }
        ensures rows { RowsAfter self.old.rows (note action, numbered watch_number result) self.new.rows }
        ensures domain { self.new.domain ≡ self.old.domain }
        ensures law { Then (D.meaning self.old.domain) (note action, numbered watch_number result) self.old.log self.old.rows self.new.log self.new.rows }
    {
        self.watched.add_entry(action)?;
        self.board.open_all();
        Ok(())
    }

    // Takes the last note back: its entry is dropped, and every row is opened.
    pub(crate) fn retract(&mut self) -> Result<(), WatchFault>
        ensures value { result ≡ of_log (drop_outcome self.old.log) }
        ensures log { self.new.log ≡ log_after (D.meaning self.old.domain) self.old.log retract }
        ensures rows { RowsAfter self.old.rows (retract, numbered watch_number result) self.new.rows }
        ensures domain { self.new.domain ≡ self.old.domain }
        ensures law { Then (D.meaning self.old.domain) (retract, numbered watch_number result) self.old.log self.old.rows self.new.log self.new.rows }
    {
        self.watched.drop_entry()?;
        self.board.open_all();
        Ok(())
    }
}
