//! Why a log is not compiled into a card.
ghost use Rattle.std.specs.Prelude.{◌≡◌};
ghost use Rattle.compile.specs.Faults.{compile_number};
ghost use Rattle.compile.specs.declared.fault.CompileFault.TheVariants.{Log};

use domain::fault::{LogFault, Numbered};

/// The question that was the first to be answered no.
#[derive(Clone, Copy, PartialEq, Eq, Debug)]
pub enum CompileFault {
    /// the log has too many entries, or one that is no action of the card
    Log(LogFault),
    /// the card would have more than 55 fluents
    Fluents,
    /// it would have more than 120 actions
    Actions,
    /// it would have more than 32 goals
    Goals,
}

impl Numbered for CompileFault {
    ghost numbered = { compile_number };

    fn number(self) -> u8 {
        match self {
            CompileFault::Log(log) => log.number(),
            CompileFault::Fluents => 19,
            CompileFault::Actions => 20,
            CompileFault::Goals => 21,
        }
    }
}

impl From<LogFault> for CompileFault {
    ghost from_gives = { λ fault r. r ≡ Log fault };

    fn from(fault: LogFault) -> CompileFault {
        CompileFault::Log(fault)
    }
}
