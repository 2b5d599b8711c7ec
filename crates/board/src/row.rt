//! The rows of a board.
ghost use Rattle.std.specs.Prelude.{◌≡◌};
ghost use Rattle.board.specs.Rows.{open_row, judged_row, agrees};

use plans::verdict::Verdict;

/// A row is open, or holds a verdict and the costs that exist. The default is the open row.
/// It is plain, and may contradict itself: that no row does is the rule of the board.
#[derive(Clone, Copy, PartialEq, Eq, Debug, Default)]
pub struct BoardRow {
    /// none while the row is open
    pub verdict: Option<Verdict>,
    /// the least cost of an admitted plan, and of a whole one
    pub without: Option<u32>,
    pub with: Option<u32>,
}

impl BoardRow {
    pub fn open() -> BoardRow
        ensures { result ≡ open_row }
    {
        BoardRow::default()
    }

    /// The row of two least costs, with the verdict on them.
    pub fn judged(costs: (Option<u32>, Option<u32>)) -> BoardRow
        ensures { result ≡ judged_row costs.0 costs.1 }
    {
        let (without, with) = costs;
        BoardRow {
            verdict: Some(Verdict::of(costs)),
            without,
            with,
        }
    }

    /// Whether the costs are such as the verdict says.
    pub fn agrees(self) -> bool
        ensures { result ≡ agrees self }
    {
        match (self.verdict, self.without, self.with) {
            (None, None, None) => true,
            (Some(Verdict::NoPlan), None, None) => true,
            (Some(Verdict::CutOff), Some(_), None) => true,
            (Some(Verdict::Stands), Some(first), Some(second)) => first == second,
            (Some(Verdict::CostsMore), Some(first), Some(second)) => first < second,
            _ => false,
        }
    }
}
