//! A field map.
ghost use Rattle.files.specs.Outcome.{contents_of};
ghost use Rattle.maps.specs.Limits.{InLimits, map_of};

use crate::format::MapFormat;
use formats::parts::Parts;

/// It has no public fields, and its limits are part of its type: those of its parts, in the words of places.
#[derive(Drop)]
pub struct FieldMap {
    pub(crate) parts: Parts<MapFormat>,
    ghost in_limits: { InLimits (map_of (contents_of parts.file)) },
}
