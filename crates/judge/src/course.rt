//! How far a list of actions runs.
ghost use Rattle.std.specs.Prelude.{◌≡◌, ◌<◌, ◌≤◌, false, length, take, slice_index};
ghost use Rattle.plans.specs.Plans.{after, RunsAll, cost_of};

use domain::Domain;

/// The actions of a list that run one after another from the start, up to the first that cannot.
#[derive(Clone, Copy, PartialEq, Eq, Debug)]
pub struct Course {
    /// how many they are
    pub ran: usize,
    /// the state that they lead to
    pub last: u64,
    /// the sum of their costs
    pub cost: u128,
}

impl Course {
    pub fn of<D: Domain>(domain: &D, list: &[u8]) -> Course
        ensures within { result.ran ≤ length list.now }
        ensures runs { RunsAll (D.meaning domain.now) (D.meaning domain.now).start (take result.ran list.now) }
        ensures stops { result.ran < length list.now → (D.meaning domain.now).runs result.last (slice_index list.now result.ran) ≡ false }
        ensures last { result.last ≡ after (D.meaning domain.now) (D.meaning domain.now).start (take result.ran list.now) }
        ensures cost { result.cost ≡ cost_of (D.meaning domain.now) (take result.ran list.now) }
    {
        let mut last = domain.start();
        let mut cost = 0;
        for (ran, action) in list.iter().enumerate() {
            if !domain.runs(last, *action) {
                return Course { ran, last, cost };
            }
            last = domain.next(last, *action);
            cost += u128::from(domain.cost(*action));
        }
        Course {
            ran: list.len(),
            last,
            cost,
        }
    }
}
