//! The places of a field map.
ghost use Rattle.std.specs.Prelude.{◌≡◌};

/// A place, by its number; places are numbered from 0.
#[derive(Clone, Copy, PartialEq, Eq, Debug)]
pub struct Place(pub u8);

impl From<Place> for u64 {
    ghost from_gives = { λ place number. number ≡ place.0 };

    fn from(place: Place) -> u64 {
        u64::from(place.0)
    }
}
