//! A domain with a log.
ghost use Rattle.std.specs.Prelude.{◌≡◌, ℕ, ◌-◌, List, [], ◌∷◌, ◌++◌, length, take, is_ok, if◌then◌else◌};
ghost use Rattle.domain.specs.Meaning.{Meaning};
ghost use Rattle.logs.specs.Entries.{entries};
ghost use Rattle.plans.specs.Laws.{Watchable, PlanLaws, WholeLaws};
ghost use Rattle.plans.specs.Reachable.{NeverBoth};
ghost use Rattle.plans.specs.Stacks.{Stackable, StackLaws};
ghost use Rattle.watched.specs.Noting.{add_outcome, drop_outcome};

use domain::Domain;
use domain::fault::LogFault;
use logs::log::ObservationLog;
use std::marker::Model;

#[derive(Drop)]
pub struct Watched<D> {
    pub(crate) domain: D,
    pub(crate) log: ObservationLog,
}

// A contract sees the domain below and the log.
impl<D> Model for Watched<D> {
    ghost use Rattle.watched.specs.Held.{Held};

    ghost Value = { Held D };

    ghost view = { λ w. record { domain = w.domain; log = w.log } };
}

impl<D: Domain> Watched<D> {
    /// The domain with an empty log.
    /// Of every domain and log: a list is a plan of the watched domain exactly when it is an admitted one,
    /// and ends complete exactly when it also carries the log and ends complete below. Of a stack of logs the same holds for every log in it.
    /// No domain has both at most n reachable states and more than n.
    pub fn new(domain: D) -> Watched<D>
        ensures domain { result.domain ≡ domain }
        ensures log { entries result.log ≡ [] }
        ensures plans { (d : Meaning) (log : List ℕ) → Watchable d log → PlanLaws d log }
        ensures whole { (d : Meaning) (log : List ℕ) → Watchable d log → WholeLaws d log }
        ensures stacks { (b : Meaning) (logs : List (List ℕ)) → Stackable b logs → StackLaws b logs }
        ensures counts { (d : Meaning) (n : ℕ) → NeverBoth d n }
    {
        Watched {
            domain,
            log: ObservationLog::new(),
        }
    }

    /// The domain below.
    pub fn domain(&self) -> &D
        ensures { result.now ≡ self.now.domain }
    {
        &self.domain
    }

    pub fn log(&self) -> ObservationLog
        ensures { result ≡ self.now.log }
    {
        self.log
    }

    /// One entry more at the end of the log.
    pub fn add_entry(&mut self, action: u8) -> Result<(), LogFault>
        ensures value { result ≡ add_outcome (D.meaning self.old.domain) (entries self.old.log) action }
        ensures log { entries self.new.log ≡ (if is_ok result then entries self.old.log ++ (action ∷ []) else entries self.old.log) }
        ensures domain { self.new.domain ≡ self.old.domain }
    {
        if action >= self.domain.action_count() {
            return Err(LogFault::Action);
        }
        if !self.is_narrow() {
            return Err(LogFault::Width);
        }
        self.log.append(action)
    }

    /// The last entry less.
    pub fn drop_entry(&mut self) -> Result<(), LogFault>
        ensures value { result ≡ drop_outcome (entries self.old.log) }
        ensures log { entries self.new.log ≡ take (length (entries self.old.log) - 1) (entries self.old.log) }
        ensures domain { self.new.domain ≡ self.old.domain }
    {
        self.log.drop_last().ok_or(LogFault::Empty)?;
        Ok(())
    }
}
