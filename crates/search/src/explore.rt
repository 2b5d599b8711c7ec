//! All states that can be reached, each with a cheapest way to it.
ghost use Rattle.std.specs.Prelude.{◌≡◌, ◌≤◌, length, MatchResult};
ghost use Rattle.plans.specs.Reachable.{MoreThan};
ghost use Rattle.table.specs.Rows.{node};
ghost use Rattle.search.specs.declared.fault.SearchFault.TheVariants.{Rows};
ghost use Rattle.search.specs.Searching.{stage_of};
ghost use Rattle.search.specs.Solved.{Solved, Exploring};

use crate::entry::Entry;
use crate::fault::SearchFault;
use crate::least_costs::MOST_ROWS;
use crate::progress::Progress;
use crate::settle::{expand, take_next};
use domain::Domain;
use heap::push;
use table::index::{add, clear};
use table::row::{Node, Row};

// The start alone, which waits.
fn begin<D: Domain>(domain: &D, rows: &mut [Row], list: &mut [Entry]) -> Progress
    requires { (1 ≤ length rows.old) × (length rows.old ≤ MOST_ROWS) × (length rows.old ≤ length list.old) }
    ensures { Exploring (D.meaning domain.now) (stage_of rows.new list.new result) }
{
    clear(rows);
    let start = Node {
        state: domain.start(),
        ..Node::default()
    };
    // there is a place for each: neither the table nor the list is empty
    add(rows, 0, start);
    push(list, 0, Entry::new(0, &start), rows);
    Progress {
        known: 1,
        waiting: 1,
    }
}

// How many states can be reached, if they are no more than the rows.
pub(crate) fn explore<D: Domain>(
    domain: &D,
    rows: &mut [Row],
    list: &mut [Entry],
) -> Result<usize, SearchFault>
    requires { (1 ≤ length rows.old) × (length rows.old ≤ MOST_ROWS) × (length rows.old ≤ length list.old) }
    ensures { MatchResult result (λ n. (n ≤ length rows.old) × Solved (D.meaning domain.now) (node rows.new) n) (λ fault. (fault ≡ Rows) × MoreThan (D.meaning domain.now) (length rows.old)) }
{
    let mut progress = begin(domain, rows, list);
    while let Some(row) = take_next(rows, list, &mut progress) {
        expand(domain, rows, list, &mut progress, row)?;
    }
    Ok(progress.known)
}
