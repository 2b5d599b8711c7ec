//! The cheapest rows in whose states plans end.
ghost use Rattle.std.specs.Prelude.{◌≡◌, ℕ, ◌<◌, ◌≤◌, Bool, true, false, length, IfSome, IsTrue};
ghost use Rattle.table.specs.Rows.{node};
ghost use Rattle.search.specs.Solved.{CheapestIn, CheapestEnd};

use domain::Domain;
use table::row::Row;

// The cheapest of the rows in whose states a plan ends; the first of them where several cost as little.
fn cheapest_end<F: Fn(u64) -> bool>(rows: &[Row], ends: F) -> Option<usize>
    requires { F.IsAlwaysCallable ends }
    ensures row { IfSome result (λ i. i < length rows.now) }
    ensures cheapest { (such : ℕ → Bool) → ((s : ℕ) (r : Bool) → F.post ends s r → r ≡ such s) → CheapestIn (λ s. IsTrue (such s)) (node rows.now) (length rows.now) result }
{
    rows.iter()
        .enumerate()
        .filter(|(_, row)| ends(row.node.state))
        .min_by_key(|(_, row)| row.node.cost)
        .map(|(i, _)| i)
}

// The cheapest of the known rows in whose states a plan for the goal ends, and the cheapest of those whose states are complete.
pub(crate) fn cheapest_ends<D: Domain>(
    domain: &D,
    rows: &[Row],
    known: usize,
    goal: u8,
) -> (Option<usize>, Option<usize>)
    requires { known ≤ length rows.now }
    ensures rows { IfSome result.0 (λ i. i < known) × IfSome result.1 (λ i. i < known) }
    ensures without { CheapestEnd (D.meaning domain.now) goal false (node rows.now) known result.0 }
    ensures with { CheapestEnd (D.meaning domain.now) goal true (node rows.now) known result.1 }
{
    let rows = &rows[..known];
    let meets = |state| domain.meets(state, goal);
    let without = cheapest_end(rows, meets);
    let with = cheapest_end(rows, |state| meets(state) && domain.complete(state));
    (without, with)
}
