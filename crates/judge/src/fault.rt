//! Why it is not told what a list of actions carries.
ghost use Rattle.std.specs.Prelude.{Some, codes};

use std::error::Error;
use std::fmt;

/// It has no number, since no program reports it: a program lends as many places as a log has entries.
#[derive(Clone, Copy, PartialEq, Eq, Debug)]
pub enum CarryFault {
    /// the place is shorter than the log
    Place,
}

impl fmt::Display for CarryFault {
    ghost output = { λ _. Some (codes "no room for the places") };

    fn fmt<W: fmt::Write>(&self, f: &mut fmt::Formatter<W>) -> fmt::Result {
        f.write_str("no room for the places")
    }
}

impl Error for CarryFault {}
