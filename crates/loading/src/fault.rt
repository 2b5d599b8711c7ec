//! Why no domain is loaded.
ghost use Rattle.std.specs.Prelude.{◌≡◌, Some};
ghost use Rattle.loading.specs.Faults.{load_number, file_fault, bytes_fault, no_room_words};
ghost use Rattle.loading.specs.declared.fault.LoadFault.TheVariants as fault;

use crate::any_file::kind_of;
use domain::fault::{Numbered, ReadFault, RoomFault};
use domain::room::Unfilled;
use files::kind::Kind;
use std::error::Error;
use std::fmt;

#[derive(Clone, Copy, PartialEq, Eq, Debug)]
pub enum LoadFault {
    /// there is no memory for a domain
    Room(RoomFault),
    /// the bytes are no domain's file
    Read(ReadFault),
}

impl LoadFault {
    /// The fault of the file, or else the error that there was no memory.
    pub fn of_file(self) -> Result<ReadFault, RoomFault>
        ensures { result ≡ file_fault self }
    {
        match self {
            LoadFault::Room(fault) => Err(fault),
            LoadFault::Read(fault) => Ok(fault),
        }
    }

    /// The same for the bytes that were to be loaded: where there was no memory, it is said for which kind of domain.
    pub fn of_bytes(self, bytes: &[u8]) -> Result<ReadFault, NoRoom>
        ensures { result ≡ bytes_fault bytes.now self }
    {
        self.of_file().map_err(|_| NoRoom(kind_of(bytes)))
    }
}

/// There was no memory for a domain of this kind.
#[derive(Clone, Copy, PartialEq, Eq, Debug)]
pub struct NoRoom(pub Kind);

impl fmt::Display for NoRoom {
    ghost output = { λ fault. Some (no_room_words fault.0) };

    fn fmt<W: fmt::Write>(&self, f: &mut fmt::Formatter<W>) -> fmt::Result {
        f.write_str(match self.0 {
            Kind::Card => "no memory for a card",
            Kind::Map => "no memory for a map",
        })
    }
}

impl Error for NoRoom {}

impl Numbered for LoadFault {
    ghost numbered = { load_number };

    fn number(self) -> u8 {
        match self {
            LoadFault::Room(fault) => fault.number(),
            LoadFault::Read(fault) => fault.number(),
        }
    }
}

impl From<RoomFault> for LoadFault {
    ghost from_gives = { λ room given. given ≡ fault.Room room };

    fn from(room: RoomFault) -> LoadFault {
        LoadFault::Room(room)
    }
}

// The room for a file that was refused is given up.
impl<S: Drop, G: Drop> From<Unfilled<ReadFault, S, G>> for LoadFault {
    ghost from_gives = { λ unread given. given ≡ fault.Read unread.fault };

    fn from(unread: Unfilled<ReadFault, S, G>) -> LoadFault {
        LoadFault::Read(unread.fault)
    }
}
