//! A set-up card.
ghost use Rattle.files.specs.Outcome.{contents_of};
ghost use Rattle.cards.specs.Limits.{InLimits, card_of};

use crate::format::CardFormat;
use formats::parts::Parts;

/// It has no public fields, and its limits are part of its type: those of its parts, in the words of fluents.
#[derive(Drop)]
pub struct Card {
    pub(crate) parts: Parts<CardFormat>,
    ghost in_limits: { InLimits (card_of (contents_of parts.file)) },
}
