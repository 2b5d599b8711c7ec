//! A board. No board exists with a row whose costs contradict its verdict.
ghost use Rattle.std.specs.Prelude.{◌≡◌, ◌&&◌, length, replicate, if◌then◌else◌, nat_lt, slice_set};
ghost use Rattle.std.specs.List.{slice_get};
ghost use Rattle.board.specs.Rows.{open_row, agrees, AllAgree, BoardRows};

use crate::row::BoardRow;
use domain::limits::MOST_GOALS;
use std::marker::Model;

/// A row for each goal that a domain may have, in a fixed table, so that no call allocates.
#[derive(Clone, Copy, PartialEq, Eq, Debug)]
pub struct Board {
    rows: [BoardRow; Board::ROWS],
    ghost long: { length rows ≡ 32 },
    ghost agree: { AllAgree rows },
}

// A contract sees the rows, with what holds of those of every board.
impl Model for Board {
    ghost Value = { BoardRows };

    ghost view = { λ board. record { rows = board.rows; long = board.long; agree = board.agree } };

    ghost inverse = { λ board. record { rows = board.rows; long = board.long; agree = board.agree } };
}

impl Board {
    /// How many rows a board has, as many as a domain may have goals.
    pub const ROWS: usize = MOST_GOALS as usize;

    /// All rows are open.
    pub fn new() -> Board
        ensures { result.rows ≡ replicate 32 open_row }
    {
        Board {
            rows: [BoardRow::open(); Board::ROWS],
        }
    }

    /// The row of a goal, if the board has one of that number.
    pub fn row(&self, goal: u8) -> Option<BoardRow>
        ensures { result ≡ slice_get self.now.rows goal }
    {
        self.rows.get(usize::from(goal)).copied()
    }

    /// Opens all rows.
    pub fn open_all(&mut self)
        ensures { self.new.rows ≡ replicate 32 open_row }
    {
        *self = Board::new();
    }

    /// Puts a row in the place of a goal's; the answer is whether there is such a place, and the row agrees with itself.
    /// It is a yes or a no: of a row that is not stored there is nothing more to tell.
    pub fn store(&mut self, goal: u8, row: BoardRow) -> bool
        ensures value { result ≡ (nat_lt goal 32 && agrees row) }
        ensures rows { self.new.rows ≡ (if result then slice_set self.old.rows goal row else self.old.rows) }
    {
        // by index: after `get_mut` the check finds neither the invariant nor the other rows again
        if usize::from(goal) < Board::ROWS && row.agrees() {
            self.rows[usize::from(goal)] = row;
            true
        } else {
            false
        }
    }
}

impl Default for Board {
    ghost is_default = { λ board. board.rows ≡ replicate 32 open_row };

    fn default() -> Board {
        Board::new()
    }
}
