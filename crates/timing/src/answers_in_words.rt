//! What is printed of a goal.
ghost use Rattle.std.specs.Prelude.{Some};
ghost use Rattle.timing.specs.Words.{cost_words, answer_words};

use domain::fault::Numbered;
use search::fault::SearchFault;
use std::fmt;

// A cost, or a dash where there is none.
#[derive(Clone, Copy)]
struct Cost(Option<u32>);

impl fmt::Display for Cost {
    ghost output = { λ cost. Some (cost_words cost.0) };

    fn fmt<W: fmt::Write>(&self, f: &mut fmt::Formatter<W>) -> fmt::Result {
        match self.0 {
            Some(cost) => write!(f, "{cost}"),
            None => f.write_str("-"),
        }
    }
}

// The two least costs and the length of the plan.
#[derive(Clone, Copy)]
struct Answer {
    without: Cost,
    with: Cost,
    length: usize,
}

impl fmt::Display for Answer {
    ghost output = { λ answer. Some (answer_words answer.without.0 answer.with.0 answer.«length») };

    fn fmt<W: fmt::Write>(&self, f: &mut fmt::Formatter<W>) -> fmt::Result {
        write!(
            f,
            "costs {} {} plan {}",
            self.without, self.with, self.length
        )
    }
}

pub(crate) fn say(
    rt: &HostRuntime,
    goal: u8,
    found: Result<(Option<u32>, Option<u32>), SearchFault>,
    plan: &[u8],
) -> anyhow::Result<()> {
    match found {
        Ok((without, with)) => {
            let answer = Answer {
                without: Cost(without),
                with: Cost(with),
                length: plan.len(),
            };
            println!(rt; "goal {goal} {answer}")?;
        }
        Err(fault) => {
            let number = fault.number();
            println!(rt; "goal {goal} refused {number}")?;
        }
    }
    Ok(())
}
