//! The tables of a search. Their size and the plan that they show are all that counts outside; the clause `answered` is the search's, and also says what stays of the plan place.
ghost use Rattle.std.specs.Prelude.{◌≡◌, ◌≤◌, vec_len};

use crate::fault::TablesFault;
use domain::Domain;
use search::entry::Entry;
use search::fault::SearchFault;
use search::least_costs::{MOST_ROWS, least_costs};
use std::alloc::Global;
use table::row::Row;

/// The rows of a search, and a waiting list and a plan place as long.
#[derive(Drop)]
pub struct Tables {
    rows: Vec<Row>,
    waiting: Vec<Entry>,
    plan: Vec<u8>,
    // how many actions the plan has that the last search shows; they stand in the front of the plan place, which is lent to each search whole
    shown: usize,
    ghost suited: { (1 ≤ vec_len rows) × (vec_len rows ≤ 4096) },
    ghost alike: { (vec_len waiting ≡ vec_len rows) × (vec_len plan ≡ vec_len rows) },
    ghost within: { shown ≤ vec_len plan },
}

impl Tables {
    ghost use Rattle.search.specs.Answers.{TablesStay};
    ghost use Rattle.tables.specs.Answers.{Answered};
    ghost use Rattle.tables.specs.Parts.{row_count, rows_of, waiting_of, plan_of};
    ghost use Rattle.tables.specs.Taking.{Taken};

    /// The most rows that a search works with.
    pub const MOST: usize = MOST_ROWS;

    /// Tables of so many rows, and no plan in them yet.
    pub fn take(heap: Global, rows: usize) -> Result<Tables, TablesFault>
        ensures { Taken rows result }
    {
        if rows < 1 || rows > Tables::MOST {
            return Err(TablesFault::Rows);
        }
        Ok(Tables {
            rows: vec![in heap; Row::default(); rows]?,
            waiting: vec![in heap; Entry::default(); rows]?,
            plan: vec![in heap; 0u8; rows]?,
            shown: 0,
        })
    }

    /// The least cost of a plan for the goal, and that of a plan which ends in a complete state.
    pub fn least_costs<D: Domain>(
        &mut self,
        domain: &D,
        goal: u8,
    ) -> Result<(Option<u32>, Option<u32>), SearchFault>
        ensures answered { Answered (D.meaning domain.now) goal self.old self.new result }
        ensures count { row_count self.new ≡ row_count self.old }
        ensures rows { TablesStay result (rows_of self.new ≡ rows_of self.old) }
        ensures waiting { TablesStay result (waiting_of self.new ≡ waiting_of self.old) }
    {
        let (costs, shown) = least_costs(
            domain,
            goal,
            self.rows.as_mut_slice(),
            self.waiting.as_mut_slice(),
            self.plan.as_mut_slice(),
        )?;
        self.shown = shown;
        Ok(costs)
    }

    /// The plan that the last search shows: a cheapest complete one where there is one, else a cheapest one, else none.
    pub fn plan(&self) -> &[u8]
        ensures { result.now ≡ plan_of self.now }
    {
        &self.plan[..self.shown]
    }
}
