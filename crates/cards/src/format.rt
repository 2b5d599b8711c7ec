//! What a card's file holds.
ghost use Rattle.files.specs.declared.kind.Kind.TheVariants as kind;
ghost use Rattle.cards.specs.Limits.{Among, ActionAmong, InLimits, card_of};
ghost use Rattle.cards.specs.Conversions.{converts, same_limits};

use crate::action::Action;
use files::kind::Kind;
use fluents::FluentSet;
use formats::format::Format;

/// The format of a card's file; it has no values.
pub enum CardFormat {}

impl Format for CardFormat {
    type Action = Action;

    type Goal = FluentSet;

    const KIND: Kind = Kind::Card;

    ghost KIND = { kind.Card };

    ghost action_in = { ActionAmong };

    ghost goal_in = { Among };

    ghost limits = { λ f. InLimits (card_of f) };

    ghost converts = { converts };

    ghost same_limits = { same_limits };
}
