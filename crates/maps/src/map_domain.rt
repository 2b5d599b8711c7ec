//! A field map as a planning domain.
ghost use Rattle.std.specs.Prelude.{◌≡◌, ◌↔◌, ◌^◌, ◌<◌, ◌≤◌, false, IsTrue, MatchOption};
ghost use Rattle.maps.specs.Contents.{contents};
ghost use Rattle.maps.specs.Maps.{meaning_of, move_at, Runs, Meets, OwnCost, OwnMark};
ghost use Rattle.maps.specs.Laws;
ghost use Rattle.maps.specs.Laws.{in_limits};

use crate::field_map::FieldMap;
use crate::moves::Move;
use domain::Domain;
use files::numbers::has_bits;

// A place is a number below 64.
const WIDTH: u8 = 6;

impl FieldMap {
    // The move of that number, if it runs in the state.
    fn running(&self, state: u64, action: u8) -> Option<&Move>
        ensures { MatchOption result (Runs (contents self.now) state action → ⊥) (λ m. Runs (contents self.now) state action × (m.now ≡ move_at (contents self.now) action)) }
    {
        self.parts
            .action(action)
            .filter(|m| state == u64::from(m.from))
    }
}

impl Domain for FieldMap {
    ghost meaning = { λ m. meaning_of (contents m) };

    ghost limits = { λ d. Laws.limits (contents d) (in_limits d) };

    fn width(&self) -> u8 {
        WIDTH
    }

    fn action_count(&self) -> u8 {
        self.parts.action_count()
    }

    fn goal_count(&self) -> u8 {
        self.parts.goal_count()
    }

    fn start(&self) -> u64
        ensures value { result ≡ (meaning_of (contents self.now)).start }
        ensures own { result ≡ (contents self.now).start.0 }
    {
        self.parts.start()
    }

    fn runs(&self, state: u64, action: u8) -> bool
        ensures value { result ≡ (meaning_of (contents self.now)).runs state action }
        ensures leaves { IsTrue result ↔ Runs (contents self.now) state action }
        ensures elsewhere { (contents self.now).places ≤ state → result ≡ false }
    {
        self.running(state, action).is_some()
    }

    fn next(&self, state: u64, action: u8) -> u64
        ensures value { result ≡ (meaning_of (contents self.now)).next state action }
        ensures reaches { Runs (contents self.now) state action → result ≡ (move_at (contents self.now) action).to.0 }
        ensures stays { (Runs (contents self.now) state action → ⊥) → result ≡ state }
    {
        self.running(state, action)
            .map_or(state, |m| u64::from(m.to))
    }

    // The cost and the mark are asked for by the same lines as a card's: a trait for the two would be longer than these lines.
    fn cost(&self, action: u8) -> u16
        ensures value { result ≡ (meaning_of (contents self.now)).cost action }
        ensures own { OwnCost (contents self.now) action result }
    {
        self.parts.action(action).map_or(0, |m| m.cost)
    }

    fn marked(&self, action: u8) -> bool
        ensures value { result ≡ (meaning_of (contents self.now)).marked action }
        ensures own { OwnMark (contents self.now) action result }
    {
        self.parts.action(action).is_some_and(|m| m.marked)
    }

    fn meets(&self, state: u64, goal: u8) -> bool
        ensures value { result ≡ (meaning_of (contents self.now)).meets state goal }
        ensures there { IsTrue result ↔ Meets (contents self.now) state goal }
        ensures elsewhere { (contents self.now).places ≤ state → result ≡ false }
    {
        self.parts
            .goal(goal)
            .is_some_and(|place| state == u64::from(*place))
    }

    fn complete(&self, state: u64) -> bool
        ensures value { result ≡ (meaning_of (contents self.now)).complete state }
        ensures every { IsTrue result ↔ (state < 2 ^ 6) }
    {
        has_bits(state, self.width())
    }
}
