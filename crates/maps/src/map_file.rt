//! A field map's file.
ghost use Rattle.std.specs.Prelude.{◌≡◌, IfOk, IfErr, Ok};
ghost use Rattle.domain.specs.Rooms.{SameRoom};
ghost use Rattle.files.specs.Writing.{write_outcome, place_after};
ghost use Rattle.maps.specs.Contents.{contents};
ghost use Rattle.maps.specs.MapFiles.{map_file, read_map, outcome, ReadExactly};

use crate::field_map::FieldMap;
use crate::moves::Move;
use crate::place::Place;
use domain::fault::{ReadFault, WriteFault};
use domain::room::{Room, Unfilled};
use formats::parts::Parts;

impl FieldMap {
    /// The map that the bytes are the file of, in the room that is handed over. A refusal gives the room back.
    /// Its parts are read for every kind of domain alike; only the words of the contract are a map's own.
    #[tactic(auto, using(crate::proofs::FileLaws::told_exactly))]
    pub fn read(
        bytes: &[u8],
        room: Room<Move, Place>,
    ) -> Result<FieldMap, Unfilled<ReadFault, Move, Place>>
        ensures value { outcome result ≡ read_map bytes.now }
        ensures room { IfErr result (λ u. SameRoom room u.room) }
        ensures exact { ReadExactly bytes.now }
        ensures same { IfOk result (λ m. map_file (contents m) ≡ bytes.now) }
    {
        let parts = Parts::read(bytes, room)?;
        Ok(FieldMap { parts })
    }

    /// The map's file into the front of the place; the answer is how many bytes it takes.
    pub fn write(&self, place: &mut [u8]) -> Result<usize, WriteFault>
        ensures value { result ≡ write_outcome (map_file (contents self.now)) place.old }
        ensures place { place.new ≡ place_after (map_file (contents self.now)) place.old }
        ensures again { read_map (map_file (contents self.now)) ≡ Ok (contents self.now) }
    {
        self.parts.write(place)
    }
}
