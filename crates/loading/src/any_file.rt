//! The file of a domain of either kind.
ghost use Rattle.std.specs.Prelude.{◌≡◌, IfOk, Ok};
ghost use Rattle.files.specs.Writing.{write_outcome, place_after};
ghost use Rattle.loading.specs.Contents.{contents};
ghost use Rattle.loading.specs.Loading.{kind_of, domain_file, load, Loads, ReadExactly};

use crate::any_domain::AnyDomain;
use crate::fault::LoadFault;
use cards::card::Card;
use domain::fault::WriteFault;
use domain::room::Room;
use files::kind::Kind;
use maps::field_map::FieldMap;
use std::alloc::Global;

// The kind of domain that bytes are read as.
pub(crate) fn kind_of(bytes: &[u8]) -> Kind
    ensures { result ≡ kind_of bytes.now }
{
    if bytes.first() == Some(&Kind::Map.letter()) {
        Kind::Map
    } else {
        Kind::Card
    }
}

impl AnyDomain {
    /// The domain that the bytes are the file of: a map after the letter M, and else a card. It can also fail for want of memory.
    #[tactic(auto, using(crate::proofs::FileLaws::load_exactly))]
    pub fn read(heap: Global, bytes: &[u8]) -> Result<AnyDomain, LoadFault>
        ensures value { Loads bytes.now result }
        ensures exact { ReadExactly bytes.now }
        ensures same { IfOk result (λ d. domain_file (contents d) ≡ bytes.now) }
    {
        match kind_of(bytes) {
            Kind::Map => Ok(AnyDomain::Map(FieldMap::read(bytes, Room::take(heap)?)?)),
            Kind::Card => Ok(AnyDomain::Card(Card::read(bytes, Room::take(heap)?)?)),
        }
    }

    /// The domain's file into the front of the place; the answer is how many bytes it takes.
    pub fn write(&self, place: &mut [u8]) -> Result<usize, WriteFault>
        ensures value { result ≡ write_outcome (domain_file (contents self.now)) place.old }
        ensures place { place.new ≡ place_after (domain_file (contents self.now)) place.old }
        ensures again { load (domain_file (contents self.now)) ≡ Ok (contents self.now) }
    {
        match self {
            AnyDomain::Card(card) => card.write(place),
            AnyDomain::Map(map) => map.write(place),
        }
    }
}
