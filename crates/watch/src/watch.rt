//! A watch over a domain.
ghost use Rattle.std.specs.Prelude.{◌≡◌, [], replicate};
ghost use Rattle.board.specs.Rows.{open_row};
ghost use Rattle.watch.specs.Runs.{Ran};

use board::board::Board;
use domain::Domain;
use std::marker::Model;
use watched::watched::Watched;

/// The domain with its log, and what the last reports on its goals said.
#[derive(Drop)]
pub struct Watch<D> {
    pub(crate) watched: Watched<D>,
    pub(crate) board: Board,
}

// A contract sees the domain, the entries of the log, and the rows: at most 20 entries, and 32 rows that agree with themselves.
impl<D> Model for Watch<D> {
    ghost use Rattle.logs.specs.Entries.{entries};
    ghost use Rattle.logs.proofs.Fronts.{few_entries};
    ghost use Rattle.watch.specs.Kept.{Kept};

    ghost Value = { Kept D };

    ghost view = { λ w. record { domain = w.watched.domain; log = entries w.watched.log; rows = w.board.rows; few = few_entries w.watched.log; long = w.board.long; agree = w.board.agree } };
}

impl<D: Domain> Watch<D> {
    // A watch begins with an empty log, and all its rows are open.
    pub(crate) fn new(domain: D) -> Watch<D>
        ensures domain { result.domain ≡ domain }
        ensures log { result.log ≡ [] }
        ensures rows { result.rows ≡ replicate 32 open_row }
        ensures law { Ran (D.meaning domain) [] result.log result.rows }
    {
        Watch {
            watched: Watched::new(domain),
            board: Board::new(),
        }
    }
}
