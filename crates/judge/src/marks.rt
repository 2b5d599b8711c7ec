//! Whether a log admits a list of actions.
ghost use Rattle.std.specs.Prelude.{◌↔◌, IsTrue};
ghost use Rattle.logs.specs.Entries.{entries};
ghost use Rattle.plans.specs.Logs.{Logged};

use domain::Domain;
use logs::log::ObservationLog;

/// Whether every marked action of the list is in the log.
pub fn admits<D: Domain>(domain: &D, log: &ObservationLog, list: &[u8]) -> bool
    ensures { IsTrue result ↔ Logged (D.meaning domain.now) (entries log.now) list.now }
{
    list.iter()
        .all(|action| log.may_run(*action, domain.marked(*action)))
}
