//! What the two least costs of a goal tell.
ghost use Rattle.std.specs.Prelude.{◌≡◌, Some};
ghost use Rattle.plans.specs.Verdicts.{verdict_of, verdict_words, JudgesRightly};

use std::fmt;

#[derive(Clone, Copy, PartialEq, Eq, Debug)]
pub enum Verdict {
    /// a cheapest plan carries the log
    Stands,
    /// plans that carry the log cost more than the cheapest
    CostsMore,
    /// there are plans, but none carries the log
    CutOff,
    /// there is no plan
    NoPlan,
}

impl Verdict {
    /// The verdict on the least cost of an admitted plan and that of a whole one.
    /// It is no `From`: the clause `right` carries the theorem on verdicts, under its own name.
    pub fn of(costs: (Option<u32>, Option<u32>)) -> Verdict
        ensures value { result ≡ verdict_of costs.0 costs.1 }
        ensures right { JudgesRightly costs.0 costs.1 result }
    {
        match costs {
            (None, _) => Verdict::NoPlan,
            (Some(_), None) => Verdict::CutOff,
            (Some(without), Some(with)) if without == with => Verdict::Stands,
            (Some(_), Some(_)) => Verdict::CostsMore,
        }
    }
}

impl fmt::Display for Verdict {
    ghost output = { λ verdict. Some (verdict_words verdict) };

    fn fmt<W: fmt::Write>(&self, f: &mut fmt::Formatter<W>) -> fmt::Result {
        f.write_str(match self {
            Verdict::Stands => "stands",
            Verdict::CostsMore => "costs-more",
            Verdict::CutOff => "cut-off",
            Verdict::NoPlan => "no-plan",
        })
    }
}
