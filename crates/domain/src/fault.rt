//! Why a call is refused: on a file, on a log, or for want of memory.
ghost use Rattle.std.specs.Prelude.{◌≡◌, ℕ, Some, codes};
ghost use Rattle.domain.specs.Faults.{read_number, write_number, log_number, room_number, position_of, position_words};
ghost use Rattle.domain.specs.declared.fault.RoomFault.TheVariants.{Memory};

use std::alloc::AllocError;
use std::error::Error;
use std::fmt;

/// A fault has a number, by which the programs report it.
pub trait Numbered {
    ghost numbered: { Self → ℕ };

    fn number(self) -> u8
        ensures { result ≡ numbered self };
}

/// A place in a file. Records count from 0 for the header through actions and goals.
#[derive(Clone, Copy, PartialEq, Eq, Debug)]
pub struct Position {
    pub record: usize,
    pub byte: usize,
}

impl fmt::Display for Position {
    ghost output = { λ at. Some (position_words at) };

    fn fmt<W: fmt::Write>(&self, f: &mut fmt::Formatter<W>) -> fmt::Result {
        write!(f, "record {} byte {}", self.record, self.byte)
    }
}

/// The question about a file that was the first to be answered no, and where.
#[derive(Clone, Copy, PartialEq, Eq, Debug)]
pub enum ReadFault {
    /// the first byte is not the letter of the kind
    Letter(Position),
    /// the header is cut
    Header(Position),
    /// a count is 0 or above its limit
    Count(Position),
    /// the start is no state
    Start(Position),
    /// a record is cut
    Cut(Position),
    /// a bit map has a bit that is not defined
    Bits(Position),
    /// a field is out of range, or holds the value that it has when it is absent
    Field(Position),
    /// bytes follow the last record
    End(Position),
}

impl Numbered for ReadFault {
    ghost numbered = { read_number };

    fn number(self) -> u8 {
        match self {
            ReadFault::Letter(_) => 1,
            ReadFault::Header(_) => 2,
            ReadFault::Count(_) => 3,
            ReadFault::Start(_) => 4,
            ReadFault::Cut(_) => 5,
            ReadFault::Bits(_) => 6,
            ReadFault::Field(_) => 7,
            ReadFault::End(_) => 8,
        }
    }
}

impl ReadFault {
    pub fn position(self) -> Position
        ensures { result ≡ position_of self }
    {
        match self {
            ReadFault::Letter(at)
            | ReadFault::Header(at)
            | ReadFault::Count(at)
            | ReadFault::Start(at)
            | ReadFault::Cut(at)
            | ReadFault::Bits(at)
            | ReadFault::Field(at)
            | ReadFault::End(at) => at,
        }
    }
}

/// Why a file is not written.
#[derive(Clone, Copy, PartialEq, Eq, Debug)]
pub enum WriteFault {
    /// the place is shorter than the file
    Place = 9,
}

impl Numbered for WriteFault {
    ghost numbered = { write_number };

    fn number(self) -> u8 {
        self as u8
    }
}

/// Why an entry is not added to a log, or not dropped from it.
#[derive(Clone, Copy, PartialEq, Eq, Debug)]
pub enum LogFault {
    /// the domain has no action of that number
    Action = 11,
    /// the domain is too wide to be watched
    Width = 12,
    /// the log is full
    Full = 13,
    /// the log is empty
    Empty = 14,
}

impl Numbered for LogFault {
    ghost numbered = { log_number };

    fn number(self) -> u8 {
        self as u8
    }
}

/// Why there is no room for a domain.
#[derive(Clone, Copy, PartialEq, Eq, Debug)]
pub enum RoomFault {
    /// there is no memory for a domain
    Memory = 32,
}

impl Numbered for RoomFault {
    ghost numbered = { room_number };

    fn number(self) -> u8 {
        self as u8
    }
}

impl From<AllocError> for RoomFault {
    ghost from_gives = { λ _ fault. fault ≡ Memory };

    fn from(_error: AllocError) -> RoomFault {
        RoomFault::Memory
    }
}

impl fmt::Display for RoomFault {
    ghost output = { λ _. Some (codes "no memory for a domain") };

    fn fmt<W: fmt::Write>(&self, f: &mut fmt::Formatter<W>) -> fmt::Result {
        f.write_str("no memory for a domain")
    }
}

impl Error for RoomFault {}
