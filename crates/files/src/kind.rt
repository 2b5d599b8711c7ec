//! The two kinds of domain file.
ghost use Rattle.std.specs.Prelude.{◌≡◌};
ghost use Rattle.files.specs.Formats.{letter_of, most_of, start_of, header_length};

use crate::field::Field;
use crate::layout::Layout;
use domain::limits::MOST_WIDTH_BELOW;

/// The most fluents of a card: it is never too wide to have a log over it.
pub const MOST_FLUENTS: u8 = MOST_WIDTH_BELOW;

pub const MOST_PLACES: u8 = 64;

/// The number of each is the letter of its files.
#[derive(Clone, Copy, PartialEq, Eq, Debug)]
pub enum Kind {
    Card = b'S' as isize,
    Map = b'M' as isize,
}

/// What a record after the header describes.
#[derive(Clone, Copy, PartialEq, Eq, Debug)]
pub enum Part {
    Action,
    Goal,
}

impl Kind {
    /// The first byte of a file.
    pub fn letter(self) -> u8
        ensures { result ≡ letter_of self }
    {
        self as u8
    }

    // The most fluents or places that there may be.
    pub(crate) fn most(self) -> u8
        ensures { result ≡ most_of self }
    {
        match self {
            Kind::Card => MOST_FLUENTS,
            Kind::Map => MOST_PLACES,
        }
    }

    // The field that the start is written as; unlike a record's, it is never left out.
    pub(crate) fn start(self) -> Field
        ensures { result ≡ start_of self }
    {
        match self {
            Kind::Card => Field::Set,
            Kind::Map => Field::Place,
        }
    }

    // How many bytes stand before the records: the letter, three counts and the start.
    pub(crate) fn header_length(self) -> usize
        ensures { result ≡ header_length self }
    {
        4 + self.start().bytes()
    }

    // The layout of a record of this part.
    pub(crate) fn layout(self, part: Part) -> Layout
        ensures { result ≡ record { kind = self; part = part } }
    {
        Layout { kind: self, part }
    }
}
