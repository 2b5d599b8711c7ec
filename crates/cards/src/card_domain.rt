//! A card as a planning domain.
ghost use Rattle.std.specs.Prelude.{◌≡◌, ◌↔◌, ◌^◌, ◌<◌, IsTrue, MatchOption};
ghost use Rattle.cards.specs.Cards.{action_at, meaning_of, Runs, After, Meets, OwnCost, OwnMark};
ghost use Rattle.cards.specs.Contents.{contents};
ghost use Rattle.cards.specs.Laws;
ghost use Rattle.cards.specs.Laws.{in_limits};

use crate::action::Action;
use crate::card::Card;
use domain::Domain;
use fluents::FluentSet;

impl Card {
    // A number is a state when all its bits are fluents of the card.
    fn is_state(&self, state: u64) -> bool
        ensures { IsTrue result ↔ (state < 2 ^ (contents self.now).fluents) }
    {
        // by a comparison: with `is_among` of the set, which asks the same, a search takes about 5 per cent longer
        state < 1u64 << self.parts.size()
    }

    // The action of that number, if it runs in the state.
    fn running(&self, state: u64, action: u8) -> Option<&Action>
        ensures { MatchOption result (Runs (contents self.now) state action → ⊥) (λ a. Runs (contents self.now) state action × (a.now ≡ action_at (contents self.now) action)) }
    {
        let s = FluentSet::from(state);
        let action = self.parts.action(action);
        action.filter(|a| self.is_state(state) && a.needs.within(s))
    }
}

impl Domain for Card {
    ghost meaning = { λ c. meaning_of (contents c) };

    ghost limits = { λ d. Laws.limits (contents d) (in_limits d) };

    fn width(&self) -> u8 {
        self.parts.size()
    }

    fn action_count(&self) -> u8 {
        self.parts.action_count()
    }

    fn goal_count(&self) -> u8 {
        self.parts.goal_count()
    }

    fn start(&self) -> u64
        ensures value { result ≡ (meaning_of (contents self.now)).start }
        ensures own { result ≡ (contents self.now).start.0 }
    {
        self.parts.start()
    }

    fn runs(&self, state: u64, action: u8) -> bool
        ensures value { result ≡ (meaning_of (contents self.now)).runs state action }
        ensures fluents { IsTrue result ↔ Runs (contents self.now) state action }
    {
        self.running(state, action).is_some()
    }

    fn next(&self, state: u64, action: u8) -> u64
        ensures value { result ≡ (meaning_of (contents self.now)).next state action }
        ensures fluents { Runs (contents self.now) state action → After (contents self.now) state action result }
        ensures stays { (Runs (contents self.now) state action → ⊥) → result ≡ state }
    {
        let s = FluentSet::from(state);
        self.running(state, action).map_or(state, |a| {
            u64::from(s.without(a.deletes).with(a.adds))
        })
    }

    // The cost and the mark are asked for by the same lines as a field map's: a trait for the two would be longer than these lines.
    fn cost(&self, action: u8) -> u16
        ensures value { result ≡ (meaning_of (contents self.now)).cost action }
        ensures own { OwnCost (contents self.now) action result }
    {
        self.parts.action(action).map_or(0, |a| a.cost)
    }

    fn marked(&self, action: u8) -> bool
        ensures value { result ≡ (meaning_of (contents self.now)).marked action }
        ensures own { OwnMark (contents self.now) action result }
    {
        self.parts.action(action).is_some_and(|a| a.marked)
    }

    fn meets(&self, state: u64, goal: u8) -> bool
        ensures value { result ≡ (meaning_of (contents self.now)).meets state goal }
        ensures fluents { IsTrue result ↔ Meets (contents self.now) state goal }
    {
        let s = FluentSet::from(state);
        let goal = self.parts.goal(goal);
        goal.is_some_and(|set| self.is_state(state) && set.within(s))
    }

    fn complete(&self, state: u64) -> bool
        ensures value { result ≡ (meaning_of (contents self.now)).complete state }
        ensures every { IsTrue result ↔ (state < 2 ^ (contents self.now).fluents) }
    {
        self.is_state(state)
    }
}
