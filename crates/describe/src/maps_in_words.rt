//! A field map.
use crate::domains_in_words::{Cost, InWords};
use domain::Domain;
use maps::field_map::FieldMap;
use maps::moves::Move;
use maps::place::Place;
use std::fmt;

// A place, by its number.
#[derive(Clone, Copy)]
pub(crate) struct PlaceNumber(u64);

impl fmt::Display for PlaceNumber {
    fn fmt<W: fmt::Write>(&self, f: &mut fmt::Formatter<W>) -> fmt::Result {
        let number = self.0;
        write!(f, "place {number}")
    }
}

// A move of a map.
#[derive(Clone, Copy)]
pub(crate) struct MapMove(Move);

impl fmt::Display for MapMove {
    fn fmt<W: fmt::Write>(&self, f: &mut fmt::Formatter<W>) -> fmt::Result {
        let Move {
            from,
            to,
            cost,
            marked,
        } = self.0;
        let from = PlaceNumber(from.into());
        let to = PlaceNumber(to.into());
        let cost = Cost { cost, marked };
        write!(f, "from {from} to {to}; {cost}")
    }
}

impl InWords for FieldMap {
    const KIND: &'static str = "field map";

    const STATES: &'static str = "places";

    const ACTION: &'static str = "move";

    type Action = Move;

    type Goal = Place;

    type ActionWords = MapMove;

    type StateWords = PlaceNumber;

    fn size(&self) -> u8 {
        self.places()
    }

    fn all_actions(&self) -> &[Move] {
        self.moves()
    }

    fn all_goals(&self) -> &[Place] {
        self.goals()
    }

    fn start_in_words(&self) -> PlaceNumber {
        PlaceNumber(self.start())
    }

    fn action_in_words(&self, step: Move) -> MapMove {
        MapMove(step)
    }

    fn goal_in_words(&self, place: Place) -> PlaceNumber {
        PlaceNumber(place.into())
    }
}
