//! The parts of a field map.
ghost use Rattle.std.specs.Prelude.{◌≡◌};
ghost use Rattle.std.specs.List.{slice_get};
ghost use Rattle.maps.specs.Contents.{contents};

use crate::field_map::FieldMap;
use crate::moves::Move;
use crate::place::Place;

// Each asks the parts, as a card's do; the two stay, since each is told in the words of its kind. The text of both is in `Parts`.
impl FieldMap {
    /// How many places there are.
    pub fn places(&self) -> u8
        ensures { result ≡ (contents self.now).places }
    {
        self.parts.size()
    }

    /// The moves, in the order of their numbers.
    pub fn moves(&self) -> &[Move]
        ensures { result.now ≡ (contents self.now).moves }
    {
        self.parts.actions()
    }

    /// The places of the goals, in the order of their numbers.
    pub fn goals(&self) -> &[Place]
        ensures { result.now ≡ (contents self.now).goals }
    {
        self.parts.goals()
    }

    /// The move of that number, if the map has one.
    pub fn move_at(&self, action: u8) -> Option<Move>
        ensures { result ≡ slice_get (contents self.now).moves action }
    {
        self.parts.action(action).copied()
    }

    /// The place of the goal of that number, if the map has one.
    pub fn goal(&self, goal: u8) -> Option<Place>
        ensures { result ≡ slice_get (contents self.now).goals goal }
    {
        self.parts.goal(goal).copied()
    }
}
