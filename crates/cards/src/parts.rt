//! The parts of a card.
ghost use Rattle.std.specs.Prelude.{◌≡◌};
ghost use Rattle.std.specs.List.{slice_get};
ghost use Rattle.cards.specs.Contents.{contents};

use crate::action::Action;
use crate::card::Card;
use fluents::FluentSet;

// Each asks the parts, as a map's do; the two stay, since each is told in the words of its kind. The text of both is in `Parts`.
impl Card {
    /// The actions, in the order of their numbers.
    pub fn actions(&self) -> &[Action]
        ensures { result.now ≡ (contents self.now).actions }
    {
        self.parts.actions()
    }

    /// The goals, in the order of their numbers.
    pub fn goals(&self) -> &[FluentSet]
        ensures { result.now ≡ (contents self.now).goals }
    {
        self.parts.goals()
    }

    /// The action of that number, if the card has one.
    pub fn action(&self, action: u8) -> Option<Action>
        ensures { result ≡ slice_get (contents self.now).actions action }
    {
        self.parts.action(action).copied()
    }

    /// The goal of that number, if the card has one.
    pub fn goal(&self, goal: u8) -> Option<FluentSet>
        ensures { result ≡ slice_get (contents self.now).goals goal }
    {
        self.parts.goal(goal).copied()
    }
}
