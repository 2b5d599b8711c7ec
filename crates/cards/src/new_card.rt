//! A card of given parts.
ghost use Rattle.std.specs.Prelude.{◌↔◌, IsTrue};
ghost use Rattle.cards.specs.Contents.{InLimits, MadeOf};

use crate::action::Action;
use crate::card::Card;
use domain::limits::{MOST_ACTIONS, MOST_GOALS};
use files::file::File;
use files::kind::MOST_FLUENTS;
use fluents::FluentSet;
use formats::parts::Parts;

// Whether the parts are within the limits of a card.
fn in_limits(fluents: u8, start: FluentSet, actions: &[Action], goals: &[FluentSet]) -> bool
    ensures { IsTrue result ↔ InLimits (record { fluents = fluents; start = start; actions = actions.now; goals = goals.now }) }
{
    (1..=MOST_FLUENTS).contains(&fluents)
        && (1..=usize::from(MOST_ACTIONS)).contains(&actions.len())
        && (1..=usize::from(MOST_GOALS)).contains(&goals.len())
        && start.is_among(fluents)
        && actions.iter().all(|action| action.is_among(fluents))
        && goals.iter().all(|goal| goal.is_among(fluents))
}

impl Card {
    /// The card of these parts, unless they are out of the limits of a card.
    pub fn new(
        fluents: u8,
        start: FluentSet,
        actions: Vec<Action>,
        goals: Vec<FluentSet>,
    ) -> Option<Card>
        ensures { MadeOf (record { fluents = fluents; start = start; actions = actions.items; goals = goals.items }) result }
    {
        if in_limits(fluents, start, actions.as_slice(), goals.as_slice()) {
            let file = File {
                size: fluents,
                start: u64::from(start),
                actions,
                goals,
            };
            let parts = Parts { file };
            Some(Card { parts })
        } else {
            None
        }
    }
}
