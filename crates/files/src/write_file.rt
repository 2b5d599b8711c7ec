//! Writing a whole file.
ghost use Rattle.std.specs.Prelude.{◌≡◌, ◌-◌, ◌≤◌, length, SomeIff};
ghost use Rattle.files.specs.Contents.{file_bytes};
ghost use Rattle.files.specs.Writing.{write_outcome, place_after, Wrote, raw_of, records_of, file_length};

use crate::header::Header;
use crate::kind::{Kind, Part};
use crate::layout::Layout;
use crate::record::Record;
use domain::fault::WriteFault;

// How much of the room is left after the records of the items, if they fit.
fn room_after<R: Record>(layout: Layout, items: &[R], room: usize) -> Option<usize>
    ensures { let size = length (records_of layout R.written items.now) in SomeIff result (size ≤ room) (room - size) }
{
    let mut left = room;
    for item in items {
        left = left.checked_sub(layout.record_length(item))?;
    }
    Some(left)
}

// How much of the room is left after the whole file, if it fits.
fn room_after_file<S: Record, G: Record>(
    kind: Kind,
    actions: &[S],
    goals: &[G],
    room: usize,
) -> Option<usize>
    ensures { let size = file_length kind S.written G.written actions.now goals.now in SomeIff result (size ≤ room) (room - size) }
{
    let left = room.checked_sub(kind.header_length())?;
    let left = room_after(kind.layout(Part::Action), actions, left)?;
    room_after(kind.layout(Part::Goal), goals, left)
}

// The records of the items into the front of the place; the answer is how many bytes they take.
fn write_parts<R: Record>(layout: Layout, items: &[R], place: &mut [u8]) -> usize
    requires { length (records_of layout R.written items.now) ≤ length place.old }
    ensures { Wrote (records_of layout R.written items.now) place.old place.new result }
{
    let mut count = 0;
    for item in items {
        count += layout.write_record(item, &mut place[count..]);
    }
    count
}

/// The file into the front of the place; the answer is how many bytes it takes.
/// Its parts are handed over one by one: a file owns its vectors, and a struct that borrows them would be one more type for one call.
pub fn write_file<S: Record, G: Record>(
    kind: Kind,
    size: u8,
    start: u64,
    actions: &[S],
    goals: &[G],
    place: &mut [u8],
) -> Result<usize, WriteFault>
    ensures value { result ≡ write_outcome (file_bytes kind (raw_of S.written G.written size start actions.now goals.now)) place.old }
    ensures place { place.new ≡ place_after (file_bytes kind (raw_of S.written G.written size start actions.now goals.now)) place.old }
{
    room_after_file(kind, actions, goals, place.len()).ok_or(WriteFault::Place)?;
    let header = Header::new(size, actions.len(), goals.len(), start);
    let mut count = header.write(kind, place);
    count += write_parts(kind.layout(Part::Action), actions, &mut place[count..]);
    count += write_parts(kind.layout(Part::Goal), goals, &mut place[count..]);
    Ok(count)
}
