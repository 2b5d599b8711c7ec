//! A domain of either kind.
ghost use Rattle.loading.specs.Contents.{contents};
ghost use Rattle.loading.specs.Meanings.{meaning_of, limits, in_limits};

use cards::card::Card;
use domain::Domain;
use maps::field_map::FieldMap;

#[derive(Drop)]
pub enum AnyDomain {
    Card(Card),
    Map(FieldMap),
}

// It means what the card or the map means. Each method asks the one or the other by itself, since no function may hand out a `dyn Domain`.
impl Domain for AnyDomain {
    ghost meaning = { λ d. meaning_of (contents d) };

    ghost limits = { λ d. limits (contents d) (in_limits d) };

    fn width(&self) -> u8 {
        match self {
            AnyDomain::Card(card) => card.width(),
            AnyDomain::Map(map) => map.width(),
        }
    }

    fn action_count(&self) -> u8 {
        match self {
            AnyDomain::Card(card) => card.action_count(),
            AnyDomain::Map(map) => map.action_count(),
        }
    }

    fn goal_count(&self) -> u8 {
        match self {
            AnyDomain::Card(card) => card.goal_count(),
            AnyDomain::Map(map) => map.goal_count(),
        }
    }

    fn start(&self) -> u64 {
        match self {
            AnyDomain::Card(card) => card.start(),
            AnyDomain::Map(map) => map.start(),
        }
    }

    fn runs(&self, state: u64, action: u8) -> bool {
        match self {
            AnyDomain::Card(card) => card.runs(state, action),
            AnyDomain::Map(map) => map.runs(state, action),
        }
    }

    fn next(&self, state: u64, action: u8) -> u64 {
        match self {
            AnyDomain::Card(card) => card.next(state, action),
            AnyDomain::Map(map) => map.next(state, action),
        }
    }

    fn cost(&self, action: u8) -> u16 {
        match self {
            AnyDomain::Card(card) => card.cost(action),
            AnyDomain::Map(map) => map.cost(action),
        }
    }

    fn marked(&self, action: u8) -> bool {
        match self {
            AnyDomain::Card(card) => card.marked(action),
            AnyDomain::Map(map) => map.marked(action),
        }
    }

    fn meets(&self, state: u64, goal: u8) -> bool {
        match self {
            AnyDomain::Card(card) => card.meets(state, goal),
            AnyDomain::Map(map) => map.meets(state, goal),
        }
    }

    fn complete(&self, state: u64) -> bool {
        match self {
            AnyDomain::Card(card) => card.complete(state),
            AnyDomain::Map(map) => map.complete(state),
        }
    }
}
