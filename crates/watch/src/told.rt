//! What a watch tells without being changed.
ghost use Rattle.std.specs.Prelude.{◌≡◌, length, if◌then◌else◌, None, MatchResult, nat_lt};
ghost use Rattle.std.specs.List.{slice_get};
ghost use Rattle.rank.specs.Ranking.{rank_answer, RankedInto};
ghost use Rattle.watch.specs.Faults.{of_rank};

use crate::fault::WatchFault;
use crate::watch::Watch;
use board::row::BoardRow;
use domain::Domain;
use rank::rank;

impl<D: Domain> Watch<D> {
    // The row of a goal, if the domain has one of that number.
    pub(crate) fn row(&self, goal: u8) -> Option<BoardRow>
        ensures { result ≡ (if nat_lt goal (D.meaning self.now.domain).goals then slice_get self.now.rows goal else None) }
    {
        if goal < self.watched.domain().goal_count() {
            self.board.row(goal)
        } else {
            None
        }
    }

    // How many entries the log has.
    pub(crate) fn log_length(&self) -> usize
        ensures { result ≡ length self.now.log }
    {
        self.watched.log().len()
    }

    // The entry of the log at a place, counted from 0, if there is one.
    pub(crate) fn entry(&self, place: usize) -> Option<u8>
        ensures { result ≡ slice_get self.now.log place }
    {
        self.watched.log().entry(place)
    }

    // The domain below.
    pub(crate) fn domain(&self) -> &D
        ensures { result.now ≡ self.now.domain }
    {
        self.watched.domain()
    }

    // The goals in rank order, into the front of the place; the answer is how many there are.
    pub(crate) fn rank(&self, place: &mut [u8]) -> Result<usize, WatchFault>
        ensures value { result ≡ of_rank (rank_answer (D.meaning self.now.domain).goals (length place.old)) }
        ensures place { MatchResult result (λ n. RankedInto self.now.rows n place.old place.new) (λ _. place.new ≡ place.old) }
    {
        let goals = self.watched.domain().goal_count();
        Ok(rank(&self.board, goals, place)?)
    }
}
