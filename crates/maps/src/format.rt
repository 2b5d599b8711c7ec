//! What a field map's file holds.
ghost use Rattle.files.specs.declared.kind.Kind.TheVariants as kind;
ghost use Rattle.maps.specs.Conversions.{converts, same_limits};
ghost use Rattle.maps.specs.Limits.{Among, MoveAmong, InLimits, map_of};

use crate::moves::Move;
use crate::place::Place;
use files::kind::Kind;
use formats::format::Format;

/// The format of a map's file; it has no values.
pub enum MapFormat {}

impl Format for MapFormat {
    type Action = Move;

    type Goal = Place;

    const KIND: Kind = Kind::Map;

    ghost KIND = { kind.Map };

    ghost action_in = { MoveAmong };

    ghost goal_in = { Among };

    ghost limits = { λ f. InLimits (map_of f) };

    ghost converts = { converts };

    ghost same_limits = { same_limits };
}
