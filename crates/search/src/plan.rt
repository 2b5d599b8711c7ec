//! Writing a plan from a finished table.
ghost use Rattle.std.specs.Prelude.{ℕ};
ghost use Rattle.domain.specs.Meaning.{Meaning};
ghost use Rattle.table.specs.Rows.{node};
ghost use Rattle.search.specs.Solved.{Writable, Written};

use table::row::Row;

// Writes the way to the row's state into the front of the place, from its last action back; the answer is how many actions it has.
pub(crate) fn write_plan(rows: &[Row], row: usize, plan: &mut [u8]) -> usize
    requires { (m : Meaning) × ((n : ℕ) × Writable m n rows.now row plan.old) }
    ensures { (m : Meaning) (n : ℕ) → Writable m n rows.now row plan.old → Written m (node rows.now row) plan.old plan.new result }
{
    // the places are counted down by hand: a proof does not know what is written through `iter_mut().rev()`
    let length = rows[row].node.steps;
    let mut at = row;
    let mut left = length;
    while let Some(step) = rows[at].node.last {
        left -= 1;
        plan[left] = step.action;
        at = step.from;
    }
    length
}
