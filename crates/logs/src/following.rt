//! How a log is followed, by its entries: those of a log, or none over a domain that is too wide.
//! `may_run` and `advance` of `ObservationLog`, by which the log is told, are these functions on its own entries.
ghost use Rattle.std.specs.Prelude.{◌≡◌};
ghost use Rattle.plans.specs.Counting as counting;
ghost use Rattle.plans.specs.Logs as logs;

// Whether the action is one of the entries. By a loop that is short enough to stand in a search, and not by the call of `contains`, beside which nothing is kept in registers: with that a search takes far longer.
pub(crate) fn occurs(entries: &[u8], action: u8) -> bool
    ensures { result ≡ logs.occurs action entries.now }
{
    entries.iter().any(|entry| *entry == action)
}

/// Whether a log lets an action run: one that is marked only if it is an entry.
pub fn may_run(entries: &[u8], action: u8, marked: bool) -> bool
    ensures { result ≡ counting.may_run entries.now action marked }
{
    !marked || occurs(entries, action)
}

/// How many entries are carried once the action has run, if count were before.
pub fn advance(entries: &[u8], count: usize, action: u8) -> usize
    ensures { result ≡ counting.advance entries.now count action }
{
    if entries.get(count) == Some(&action) {
        count + 1
    } else {
        count
    }
}
