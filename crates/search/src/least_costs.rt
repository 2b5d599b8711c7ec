//! The pair of least costs, and a cheapest plan.
ghost use Rattle.std.specs.Prelude.{◌≡◌, ◌≤◌, ◌↔◌, length, IsTrue};
ghost use Rattle.table.specs.Rows.{node};
ghost use Rattle.search.specs.Answers.{sizes_of, Suited, Found, Answered, TablesStay};
ghost use Rattle.search.specs.Solved.{Solved};

use crate::ends::cheapest_ends;
use crate::entry::Entry;
use crate::explore::explore;
use crate::fault::SearchFault;
use crate::plan::write_plan;
use domain::Domain;
use table::row::Row;

/// The most rows that a search works with: with no more, every cost stays below 2^28.
pub const MOST_ROWS: usize = 4096;

// Whether there are 1 to MOST_ROWS rows, and no fewer places to wait in and for the plan.
fn suited(rows: usize, waiting: usize, places: usize) -> bool
    ensures { IsTrue result ↔ Suited (record { rows = rows; waiting = waiting; places = places }) }
{
    1 <= rows && rows <= MOST_ROWS && rows <= waiting && rows <= places
}

// The costs and the plan from a finished table.
fn answer<D: Domain>(
    domain: &D,
    rows: &[Row],
    known: usize,
    goal: u8,
    plan: &mut [u8],
) -> ((Option<u32>, Option<u32>), usize)
    requires { Solved (D.meaning domain.now) (node rows.now) known × ((known ≤ length rows.now) × (known ≤ length plan.old)) }
    ensures { Found (D.meaning domain.now) goal known result.0.0 result.0.1 plan.old plan.new result.1 }
{
    let (without, with) = cheapest_ends(domain, rows, known, goal);
    let cost_of = |row: usize| rows[row].node.cost;
    let costs = (without.map(cost_of), with.map(cost_of));
    // a match: the contract of `map_or` leaves open what a place holds that the closure borrows, where there is no row
    let length = match with.or(without) {
        Some(row) => write_plan(rows, row, plan),
        None => 0,
    };
    (costs, length)
}

/// The least cost of a plan for the goal and that of a plan which ends in a complete state, and how many actions the plan has that is shown:
/// a cheapest complete one where there is one, else a cheapest one, else none.
/// The two costs are a pair, by which the verdict is decided. Each of the three places is lent by itself: a struct of borrows would name them one by one in the contract.
pub fn least_costs<D: Domain>(
    domain: &D,
    goal: u8,
    table: &mut [Row],
    waiting: &mut [Entry],
    plan: &mut [u8],
) -> Result<((Option<u32>, Option<u32>), usize), SearchFault>
    ensures answered { Answered (D.meaning domain.now) goal (sizes_of table.old waiting.old plan.old) plan.old plan.new result }
    ensures tables { TablesStay result (table.new ≡ table.old) }
    ensures waiting { TablesStay result (waiting.new ≡ waiting.old) }
{
    if goal >= domain.goal_count() {
        return Err(SearchFault::Goal);
    }
    if !suited(table.len(), waiting.len(), plan.len()) {
        return Err(SearchFault::Tables);
    }
    let known = explore(domain, table, waiting)?;
    Ok(answer(domain, table, known, goal, plan))
}
