//! What a report answers.
use plans::verdict::Verdict;

/// The verdict on a goal, the least cost of an admitted plan and that of a whole one, and how many actions the plan has that is shown.
/// The verdict stands beside the two costs that it follows from, as in the answer that a run has of it (`Report` in `Calls.antt`).
#[derive(Clone, Copy, PartialEq, Eq, Debug)]
pub struct Report {
    pub verdict: Verdict,
    pub without: Option<u32>,
    pub with: Option<u32>,
    pub length: usize,
}
