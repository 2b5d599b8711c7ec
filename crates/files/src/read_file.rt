//! Reading a whole file.
ghost use Rattle.std.specs.Prelude.{◌≡◌, ◌+◌, ◌≤◌, IfErr, vec_len, vec_capacity};
ghost use Rattle.domain.specs.Rooms.{SameRoom};
ghost use Rattle.files.specs.Exact.{ReadExactly};
ghost use Rattle.files.specs.Outcome.{outcome};
ghost use Rattle.files.specs.Cursors.{parts_at};
ghost use Rattle.files.specs.Reading.{read_file, file_with, joined_to, headed};

use crate::cursor::Cursor;
use crate::file::File;
use crate::header::Header;
use crate::kind::{Kind, Part};
use crate::layout::Layout;
use crate::record::Record;
use domain::fault::{Position, ReadFault};
use domain::room::{Room, Unfilled};

// What so many records stand for goes into the room. The answer is the position after them.
fn read_parts<R: Record>(
    from: Cursor,
    layout: Layout,
    count: usize,
    room: &mut Vec<R>,
) -> Result<Position, ReadFault>
    requires empty { vec_len room.old ≡ 0 }
    requires wide { count ≤ vec_capacity room.old }
    requires few { from.at.«record» + count ≤ 1000 }
    ensures value { parts_at R.made from.entry layout count ≡ joined_to room.new.items result }
    ensures room { vec_capacity room.new ≡ vec_capacity room.old }
{
    let mut at = from.at;
    for _ in 0..count {
        let (item, byte) = Cursor { at, ..from }.record(layout)?;
        room.push_reserved(item);
        at = Position {
            record: at.record + 1,
            byte,
        };
    }
    Ok(at)
}

// The actions and the goals go into the places for them. The answer is the header.
// The two places and not a `&mut Room`: by its type a room is empty, and would have to be so again at the end.
fn read_into<S: Record, G: Record>(
    kind: Kind,
    bytes: &[u8],
    actions: &mut Vec<S>,
    goals: &mut Vec<G>,
) -> Result<Header, ReadFault>
    requires empty { (vec_len actions.old ≡ 0) × (vec_len goals.old ≡ 0) }
    requires wide { (120 ≤ vec_capacity actions.old) × (32 ≤ vec_capacity goals.old) }
    ensures value { file_with S.made G.made (read_file kind bytes.now) ≡ headed actions.new.items goals.new.items result }
    ensures room { (vec_capacity actions.new ≡ vec_capacity actions.old) × (vec_capacity goals.new ≡ vec_capacity goals.old) }
{
    let header = Header::read(kind, bytes)?;
    let first = Cursor {
        bytes,
        size: header.size,
        at: Position {
            record: 1,
            byte: kind.header_length(),
        },
    };
    let action_count = usize::from(header.actions);
    let at = read_parts(first, kind.layout(Part::Action), action_count, actions)?;
    let goal_count = usize::from(header.goals);
    let at = read_parts(
        Cursor { at, ..first },
        kind.layout(Part::Goal),
        goal_count,
        goals,
    )?;
    if at.byte != bytes.len() {
        return Err(ReadFault::End(at));
    }
    Ok(header)
}

/// A file of the kind, in the room that is handed over. A refusal gives the room back.
pub fn read_file<S: Record + Drop, G: Record + Drop>(
    kind: Kind,
    bytes: &[u8],
    room: Room<S, G>,
) -> Result<File<S, G>, Unfilled<ReadFault, S, G>>
    ensures value { outcome result ≡ file_with S.made G.made (read_file kind bytes.now) }
    ensures room { IfErr result (λ u. SameRoom room u.room) }
    ensures exact { ReadExactly kind bytes.now }
{
    let Room {
        mut actions,
        mut goals,
    } = room;
    match read_into(kind, bytes, &mut actions, &mut goals) {
        Ok(header) => Ok(File {
            size: header.size,
            start: header.start,
            actions,
            goals,
        }),
        Err(fault) => {
            actions.clear();
            goals.clear();
            Err(Unfilled {
                fault,
                room: Room { actions, goals },
            })
        }
    }
}
