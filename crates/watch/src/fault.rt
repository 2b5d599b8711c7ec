//! Why a call on a watch is refused.
ghost use Rattle.std.specs.Prelude.{◌≡◌};
ghost use Rattle.watch.specs.Faults.{watch_number};
ghost use Rattle.watch.specs.declared.fault.WatchFault.TheVariants.{Log, Search, Rank};

use domain::fault::{LogFault, Numbered};
use rank::fault::RankFault;
use search::fault::SearchFault;

#[derive(Clone, Copy, PartialEq, Eq, Debug)]
pub enum WatchFault {
    /// an entry cannot be added to the log, or dropped from it
    Log(LogFault),
    /// the search cannot be made
    Search(SearchFault),
    /// the goals cannot be ranked
    Rank(RankFault),
}

impl Numbered for WatchFault {
    ghost numbered = { watch_number };

    fn number(self) -> u8 {
        match self {
            WatchFault::Log(fault) => fault.number(),
            WatchFault::Search(fault) => fault.number(),
            WatchFault::Rank(fault) => fault.number(),
        }
    }
}

impl From<LogFault> for WatchFault {
    ghost from_gives = { λ fault r. r ≡ Log fault };

    fn from(fault: LogFault) -> WatchFault {
        WatchFault::Log(fault)
    }
}

impl From<SearchFault> for WatchFault {
    ghost from_gives = { λ fault r. r ≡ Search fault };

    fn from(fault: SearchFault) -> WatchFault {
        WatchFault::Search(fault)
    }
}

impl From<RankFault> for WatchFault {
    ghost from_gives = { λ fault r. r ≡ Rank fault };

    fn from(fault: RankFault) -> WatchFault {
        WatchFault::Rank(fault)
    }
}
