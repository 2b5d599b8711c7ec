//! One state is settled: it is taken from the waiting list, and what its actions lead to is offered to the table.
ghost use Rattle.std.specs.Prelude.{◌*◌, ◌<◌, ◌≤◌, length, take};
ghost use Rattle.table.specs.Rows.{node};
ghost use Rattle.search.specs.Searching.{stage_of, Searching, Waiting, TakesNext, SettledRow, Expands, OffersNext};

use crate::entry::Entry;
use crate::fault::SearchFault;
use crate::least_costs::MOST_ROWS;
use crate::progress::Progress;
use crate::reach::reach;
use domain::Domain;
use domain::limits::MOST_COST;
use heap::take_least;
use table::index::put;
use table::row::{Node, Row, Step};

// The row of a cheapest state that waits, which is now settled; none where no state waits.
pub(crate) fn take_next(
    rows: &mut [Row],
    list: &mut [Entry],
    progress: &mut Progress,
) -> Option<usize>
    requires known { progress.old.known ≤ length rows.old }
    requires waiting { Waiting rows.old progress.old.known (take progress.old.waiting list.old) }
    ensures { TakesNext (stage_of rows.old list.old progress.old) (stage_of rows.new list.new progress.new) result }
{
    let (entry, waiting) = take_least(list, progress.waiting, rows)?;
    progress.waiting = waiting;
    let node = rows[entry.row].node;
    put(
        rows,
        entry.row,
        Node {
            settled: true,
            ..node
        },
    );
    Some(entry.row)
}

// Offers what one action leads to from the settled row, which has the node `here`; no way costs more than MOST_COST for each of MOST_ROWS steps. It is refused where that is new and the table is full.
fn offer<D: Domain>(
    domain: &D,
    rows: &mut [Row],
    list: &mut [Entry],
    progress: &mut Progress,
    row: usize,
    here: &Node,
    action: u8,
) -> Result<(), SearchFault>
    requires known { progress.old.known ≤ length rows.old }
    requires cost { here.now.cost ≤ MOST_COST * MOST_ROWS }
    requires steps { here.now.steps < MOST_ROWS }
    ensures { OffersNext (D.meaning domain.now) row here.now action (stage_of rows.old list.old progress.old) (stage_of rows.new list.new progress.new) result }
{
    let state = domain.next(here.state, action);
    if state == here.state {
        return Ok(());
    }
    let way = Node {
        state,
        cost: here.cost + u32::from(domain.cost(action)),
        steps: here.steps + 1,
        last: Some(Step { from: row, action }),
        settled: false,
    };
    reach(rows, list, progress, &way)
}

// Offers what the actions lead to from the settled row. It is refused where the table is full.
pub(crate) fn expand<D: Domain>(
    domain: &D,
    rows: &mut [Row],
    list: &mut [Entry],
    progress: &mut Progress,
    row: usize,
) -> Result<(), SearchFault>
    requires row { SettledRow (stage_of rows.old list.old progress.old) row (node rows.old row) }
    requires searching { Searching (D.meaning domain.now) (stage_of rows.old list.old progress.old) (node rows.old row).cost }
    ensures { Expands (D.meaning domain.now) (stage_of rows.old list.old progress.old) row (D.meaning domain.now).actions (stage_of rows.new list.new progress.new) result }
{
    let here = rows[row].node;
    for action in 0..domain.action_count() {
        offer(domain, rows, list, progress, row, &here, action)?;
    }
    Ok(())
}
