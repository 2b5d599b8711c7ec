//! A card's file.
ghost use Rattle.std.specs.Prelude.{◌≡◌, IfOk, IfErr, Ok};
ghost use Rattle.domain.specs.Rooms.{SameRoom};
ghost use Rattle.files.specs.Writing.{write_outcome, place_after};
ghost use Rattle.cards.specs.CardFiles.{card_file, read_card, outcome, ReadExactly};
ghost use Rattle.cards.specs.Contents.{contents};

use crate::action::Action;
use crate::card::Card;
use domain::fault::{ReadFault, WriteFault};
use domain::room::{Room, Unfilled};
use fluents::FluentSet;
use formats::parts::Parts;

impl Card {
    /// The card that the bytes are the file of, in the room that is handed over. A refusal gives the room back.
    /// Its parts are read for every kind of domain alike; only the words of the contract are a card's own.
    #[tactic(auto, using(crate::proofs::FileLaws::told_exactly))]
    pub fn read(
        bytes: &[u8],
        room: Room<Action, FluentSet>,
    ) -> Result<Card, Unfilled<ReadFault, Action, FluentSet>>
        ensures value { outcome result ≡ read_card bytes.now }
        ensures room { IfErr result (λ u. SameRoom room u.room) }
        ensures exact { ReadExactly bytes.now }
        ensures same { IfOk result (λ c. card_file (contents c) ≡ bytes.now) }
    {
        let parts = Parts::read(bytes, room)?;
        Ok(Card { parts })
    }

    /// The card's file into the front of the place; the answer is how many bytes it takes.
    pub fn write(&self, place: &mut [u8]) -> Result<usize, WriteFault>
        ensures value { result ≡ write_outcome (card_file (contents self.now)) place.old }
        ensures place { place.new ≡ place_after (card_file (contents self.now)) place.old }
        ensures again { read_card (card_file (contents self.now)) ≡ Ok (contents self.now) }
    {
        self.parts.write(place)
    }
}
