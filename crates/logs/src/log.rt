//! The observation log.
ghost use Rattle.std.specs.Prelude.{◌≡◌, ◌≤◌, ◌-◌, [], ◌∷◌, ◌++◌, length, take, is_ok, Ok, Err, if◌then◌else◌, nat_lt};

use crate::following;
use domain::fault::LogFault;

/// The numbers of the actions that were seen, in their order; at most 20, in a fixed table, so that no entry fails for want of memory.
/// Ghost fields and no model: the log is `Copy`, which callers may use, and a model of what is copied gives its fields back, which the entries do not.
#[derive(Clone, Copy)]
pub struct ObservationLog {
    pub(crate) table: [u8; ObservationLog::MOST],
    pub(crate) used: usize,
    ghost whole: { length table ≡ 20 },
    ghost few: { used ≤ 20 },
}

impl ObservationLog {
    ghost use Rattle.std.specs.List.{slice_get};
    ghost use Rattle.plans.specs.Logs.{occurs};
    ghost use Rattle.plans.specs.Counting.{may_run, advance};
    ghost use Rattle.logs.specs.Entries.{entries};
    ghost use Rattle.logs.specs.Reading.{read_log, outcome};

    /// The most entries that a log holds.
    pub const MOST: usize = 20;

    /// The empty log.
    pub fn new() -> ObservationLog
        ensures { entries result ≡ [] }
    {
        ObservationLog {
            table: [0; Self::MOST],
            used: 0,
        }
    }

    /// The log that bytes tell, an entry to a byte, of a domain with so many actions.
    pub fn read(bytes: &[u8], actions: u8) -> Result<ObservationLog, LogFault>
        ensures { outcome result ≡ read_log bytes.now actions }
    {
        if bytes.len() > Self::MOST {
            return Err(LogFault::Full);
        }
        let mut log = ObservationLog::new();
        for action in bytes {
            if *action >= actions {
                return Err(LogFault::Action);
            }
            log.append(*action)?;
        }
        Ok(log)
    }

    /// The entries, in their order.
    pub fn as_slice(&self) -> &[u8]
        ensures { result.now ≡ entries self.now }
    {
        &self.table[..self.used]
    }

    pub fn len(&self) -> usize
        ensures { result ≡ length (entries self.now) }
    {
        self.as_slice().len()
    }

    /// The entry at a place, counted from 0, if there is one.
    pub fn entry(&self, place: usize) -> Option<u8>
        ensures { result ≡ slice_get (entries self.now) place }
    {
        self.as_slice().get(place).copied()
    }

    /// Whether the action is one of the entries. `following::may_run` asks the same of a slice, since a watched domain follows a slice.
    pub fn occurs(&self, action: u8) -> bool
        ensures { result ≡ occurs action (entries self.now) }
    {
        following::occurs(self.as_slice(), action)
    }

    /// Whether an action may run: one that is marked only if it is an entry.
    pub fn may_run(&self, action: u8, marked: bool) -> bool
        ensures { result ≡ may_run (entries self.now) action marked }
    {
        following::may_run(self.as_slice(), action, marked)
    }

    /// One entry more, unless the log is full.
    pub fn append(&mut self, action: u8) -> Result<(), LogFault>
        ensures value { result ≡ (if nat_lt (length (entries self.old)) 20 then Ok tt else Err LogFault.Full) }
        ensures entries { entries self.new ≡ (if is_ok result then entries self.old ++ (action ∷ []) else entries self.old) }
    {
        if self.used == Self::MOST {
            return Err(LogFault::Full);
        }
        self.table[self.used] = action;
        self.used += 1;
        Ok(())
    }

    /// The last entry less; the answer is that entry, if there was one.
    pub fn drop_last(&mut self) -> Option<u8>
        ensures value { result ≡ slice_get (entries self.old) (length (entries self.old) - 1) }
        ensures entries { entries self.new ≡ take (length (entries self.old) - 1) (entries self.old) }
    {
        let last = *self.as_slice().last()?;
        self.used -= 1;
        Some(last)
    }

    /// How many entries are carried once the action has run, if count were before.
    pub fn advance(&self, count: usize, action: u8) -> usize
        ensures { result ≡ advance (entries self.now) count action }
    {
        following::advance(self.as_slice(), count, action)
    }
}

impl Default for ObservationLog {
    ghost use Rattle.logs.specs.Entries.{entries};

    ghost is_default = { λ log. entries log ≡ [] };

    fn default() -> ObservationLog {
        Self::new()
    }
}
