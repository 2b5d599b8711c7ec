//! A way to a state is offered to the table.
ghost use Rattle.std.specs.Prelude.{◌<◌, ◌≤◌, length, None, Ok};
ghost use Rattle.table.specs.Index.{Found};
ghost use Rattle.search.specs.Searching.{stage_of, Dearer, TakesWay};

use crate::entry::Entry;
use crate::fault::SearchFault;
use crate::progress::Progress;
use heap::{lower, push};
use table::index::{add, find, put};
use table::row::{Node, Row};

// The first way to a state: it gets a row, and waits. It is refused where the table is full.
fn discover(
    rows: &mut [Row],
    list: &mut [Entry],
    progress: &mut Progress,
    way: &Node,
) -> Result<(), SearchFault>
    ensures { Found rows.old progress.old.known way.now.state None → TakesWay (stage_of rows.old list.old progress.old) way.now (stage_of rows.new list.new progress.new) result }
{
    let row = progress.known;
    let known = add(rows, row, *way).ok_or(SearchFault::Rows)?;
    let entry = Entry::new(row, way);
    let waiting = push(list, progress.waiting, entry, rows).ok_or(SearchFault::Rows)?;
    *progress = Progress { known, waiting };
    Ok(())
}

// A cheaper way to the state of a row that waits.
fn improve(rows: &mut [Row], list: &mut [Entry], progress: Progress, row: usize, way: &Node)
    requires { row < length rows.old }
    ensures { Dearer (stage_of rows.old list.old progress) row way.now → TakesWay (stage_of rows.old list.old progress) way.now (stage_of rows.new list.new progress) (Ok (tt {0})) }
{
    let place = rows[row].place;
    put(rows, row, *way);
    lower(list, progress.waiting, place, Entry::new(row, way), rows);
}

// A way to a state: the table knows the state afterwards at no more than the way costs. It is refused where the state is new and the table is full.
pub(crate) fn reach(
    rows: &mut [Row],
    list: &mut [Entry],
    progress: &mut Progress,
    way: &Node,
) -> Result<(), SearchFault>
    requires { progress.old.known ≤ length rows.old }
    ensures { TakesWay (stage_of rows.old list.old progress.old) way.now (stage_of rows.new list.new progress.new) result }
{
    match find(rows, progress.known, way.state) {
        None => discover(rows, list, progress, way),
        Some(row) => {
            if way.cost < rows[row].node.cost {
                improve(rows, list, *progress, row, way);
            }
            Ok(())
        }
    }
}
