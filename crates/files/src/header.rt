//! The header of a file.
ghost use Rattle.std.specs.Prelude.{◌≡◌, ◌%◌, ◌<◌, ◌≤◌, length};
ghost use Rattle.files.specs.Contents.{header_bytes};
ghost use Rattle.files.specs.Formats.{header_length};
ghost use Rattle.files.specs.Reading.{read_count, read_header};
ghost use Rattle.files.specs.Writing.{Wrote};

use crate::kind::Kind;
use crate::numbers::{read_number, write_number};
use domain::fault::{Position, ReadFault};
use domain::limits::{MOST_ACTIONS, MOST_GOALS};

/// What stands before the records.
#[derive(Clone, Copy)]
pub struct Header {
    pub(crate) size: u8,
    pub(crate) actions: u8,
    pub(crate) goals: u8,
    pub(crate) start: u64,
}

// The count that stands at a byte, from 1 to the most that there may be.
fn read_count(bytes: &[u8], byte: usize, most: u8) -> Result<u8, ReadFault>
    requires { byte < length bytes.now }
    ensures { result ≡ read_count bytes.now byte most }
{
    let count = bytes[byte];
    if !(1..=most).contains(&count) {
        return Err(ReadFault::Count(Position { record: 0, byte }));
    }
    Ok(count)
}

impl Header {
    // The header of a file of so many actions and goals; each count takes one byte.
    // The remainder is asked for, since the check takes `as` only where the number fits.
    pub(crate) fn new(size: u8, actions: usize, goals: usize, start: u64) -> Header
        ensures { result ≡ record { size = size; actions = actions % 256; goals = goals % 256; start = start } }
    {
        Header {
            size,
            actions: (actions % 256) as u8,
            goals: (goals % 256) as u8,
            start,
        }
    }

    pub(crate) fn read(kind: Kind, bytes: &[u8]) -> Result<Header, ReadFault>
        ensures { result ≡ read_header kind bytes.now }
    {
        if bytes.first() != Some(&kind.letter()) {
            return Err(ReadFault::Letter(Position { record: 0, byte: 0 }));
        }
        let end = kind.header_length();
        if bytes.len() < end {
            return Err(ReadFault::Header(Position {
                record: 0,
                byte: bytes.len(),
            }));
        }
        let size = read_count(bytes, 1, kind.most())?;
        let actions = read_count(bytes, 2, MOST_ACTIONS)?;
        let goals = read_count(bytes, 3, MOST_GOALS)?;
        let start = read_number(&bytes[4..end]);
        if !kind.start().in_range(size, start) {
            return Err(ReadFault::Start(Position { record: 0, byte: 4 }));
        }
        Ok(Header {
            size,
            actions,
            goals,
            start,
        })
    }

    // The header into the front of the place; the answer is how many bytes it takes.
    pub(crate) fn write(self, kind: Kind, place: &mut [u8]) -> usize
        requires { header_length kind ≤ length place.old }
        ensures { Wrote (header_bytes kind self.size self.actions self.goals self.start) place.old place.new result }
    {
        place[..4].copy_from_slice(&[kind.letter(), self.size, self.actions, self.goals]);
        let end = kind.header_length();
        write_number(self.start, &mut place[4..end]);
        end
    }
}
