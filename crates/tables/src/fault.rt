//! Why there are no tables.
ghost use Rattle.std.specs.Prelude.{◌≡◌, Some};
ghost use Rattle.tables.specs.Taking.{fault_words};
ghost use Rattle.tables.specs.declared.fault.TablesFault.TheVariants.{Memory};

use std::alloc::AllocError;
use std::error::Error;
use std::fmt;

#[derive(Clone, Copy, PartialEq, Eq, Debug)]
pub enum TablesFault {
    /// no row is asked for, or more than 4096 are
    Rows,
    /// there is no memory for them
    Memory,
}

impl From<AllocError> for TablesFault {
    ghost from_gives = { λ _ fault. fault ≡ Memory };

    fn from(_error: AllocError) -> TablesFault {
        TablesFault::Memory
    }
}

impl fmt::Display for TablesFault {
    ghost output = { λ fault. Some (fault_words fault) };

    fn fmt<W: fmt::Write>(&self, f: &mut fmt::Formatter<W>) -> fmt::Result {
        f.write_str(match self {
            TablesFault::Rows => "tables have 1 to 4096 rows",
            TablesFault::Memory => "no memory for tables",
        })
    }
}

impl Error for TablesFault {}
