//! A card with a log that can be compiled.
ghost use Rattle.cards.specs.Contents.{contents};
ghost use Rattle.logs.specs.Entries.{entries};
ghost use Rattle.compile.specs.Questions.{Fits};

use cards::card::Card;
use logs::log::ObservationLog;
use std::marker::Model;

// All questions were answered yes: each entry is an action of the card, and the card with the log keeps the limits of a card.
#[derive(Drop)]
pub(crate) struct Accepted<'a> {
    pub(crate) card: &'a Card,
    pub(crate) log: ObservationLog,
    ghost fits: { Fits (contents card.now) (entries log) },
}

// A contract sees what the card holds and the entries of the log.
impl<'a> Model for Accepted<'a> {
    ghost use Rattle.cards.specs.Contents.{contents};
    ghost use Rattle.cards.specs.Laws.{in_limits};
    ghost use Rattle.logs.specs.Entries.{entries};
    ghost use Rattle.compile.specs.Questions.{Asked};

    ghost Value = { Asked };

    ghost view = { λ a. record { card = contents a.card.now; log = entries a.log; limits = in_limits a.card.now; fits = a.fits } };
}
