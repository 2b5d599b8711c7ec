//! Why a ranking is refused.
ghost use Rattle.rank.specs.Faults.{rank_number};

use domain::fault::Numbered;

#[derive(Clone, Copy, PartialEq, Eq, Debug)]
pub enum RankFault {
    /// the place is shorter than the ranking
    Place = 18,
}

impl Numbered for RankFault {
    ghost numbered = { rank_number };

    fn number(self) -> u8 {
        self as u8
    }
}
