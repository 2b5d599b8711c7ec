//! The parts of a domain, in memory.
ghost use Rattle.std.specs.Prelude.{◌≡◌, IfOk, IfErr, vec_len};
ghost use Rattle.std.specs.Slice.{IsItemAt};
ghost use Rattle.domain.specs.Rooms.{outcome_in, SameRoom};
ghost use Rattle.files.specs.Outcome.{contents_of};
ghost use Rattle.files.specs.Writing.{write_outcome, place_after};
ghost use Rattle.formats.specs.Files.{parts_file, read_parts, ReadExactly};

use crate::format::Format;
use domain::fault::{ReadFault, WriteFault};
use domain::room::{Room, Unfilled};
use files::file::File;
use files::read_file::read_file;
use files::write_file::write_file;

/// The parts of a domain as its file has them, within the limits of the format.
#[derive(Drop)]
pub struct Parts<F: Format> {
    pub file: File<F::Action, F::Goal>,
    ghost in_limits: { ∥ F.limits (contents_of file) ∥₁ },
}

impl<F: Format> Parts<F> {
    /// The parts that the bytes are the file of, in the room that is handed over. A refusal gives the room back.
    pub fn read(
        bytes: &[u8],
        room: Room<F::Action, F::Goal>,
    ) -> Result<Parts<F>, Unfilled<ReadFault, F::Action, F::Goal>>
        ensures value { outcome_in (λ p. contents_of p.file) result ≡ read_parts F.KIND F.Action.made F.Goal.made bytes.now }
        ensures room { IfErr result (λ u. SameRoom room u.room) }
        ensures exact { ReadExactly (read_parts F.KIND F.Action.made F.Goal.made) (parts_file F.KIND F.Action.written F.Goal.written) F.limits bytes.now }
        ensures same { IfOk result (λ p. parts_file F.KIND F.Action.written F.Goal.written (contents_of p.file) ≡ bytes.now) }
    {
        let file = read_file(F::KIND, bytes, room)?;
        Ok(Parts { file })
    }

    /// The file of the parts into the front of the place; the answer is how many bytes it takes.
    pub fn write(&self, place: &mut [u8]) -> Result<usize, WriteFault>
        ensures value { result ≡ write_outcome (parts_file F.KIND F.Action.written F.Goal.written (contents_of self.now.file)) place.old }
        ensures place { place.new ≡ place_after (parts_file F.KIND F.Action.written F.Goal.written (contents_of self.now.file)) place.old }
    {
        write_file(
            F::KIND,
            self.size(),
            self.start(),
            self.actions(),
            self.goals(),
            place,
        )
    }

    /// How many fluents or places there are.
    pub fn size(&self) -> u8
        ensures { result ≡ self.now.file.size }
    {
        self.file.size
    }

    pub fn start(&self) -> u64
        ensures { result ≡ self.now.file.start }
    {
        self.file.start
    }

    /// The actions, in the order of their numbers.
    pub fn actions(&self) -> &[F::Action]
        ensures { result.now ≡ self.now.file.actions.items }
    {
        self.file.actions.as_slice()
    }

    /// The goals, in the order of their numbers.
    pub fn goals(&self) -> &[F::Goal]
        ensures { result.now ≡ self.now.file.goals.items }
    {
        self.file.goals.as_slice()
    }

    pub fn action_count(&self) -> u8
        ensures { result ≡ vec_len self.now.file.actions }
    {
        self.actions().len() as u8
    }

    pub fn goal_count(&self) -> u8
        ensures { result ≡ vec_len self.now.file.goals }
    {
        self.goals().len() as u8
    }

    /// The action of that number, if there is one.
    pub fn action(&self, number: u8) -> Option<&F::Action>
        ensures { IsItemAt self.now.file.actions.items number result }
    {
        self.actions().get(usize::from(number))
    }

    /// The goal of that number, if there is one.
    pub fn goal(&self, number: u8) -> Option<&F::Goal>
        ensures { IsItemAt self.now.file.goals.items number result }
    {
        self.goals().get(usize::from(number))
    }
}
