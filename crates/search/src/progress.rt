//! How far a search has come.

// How many rows are known, and how many of them wait.
// It goes from call to call with the rows and the list: a struct of three borrows would name each of them in every contract.
// That no more rows are known than there are is said in three contracts: the rows are lent beside it, so no invariant can say it.
#[derive(Clone, Copy)]
pub(crate) struct Progress {
    pub(crate) known: usize,
    pub(crate) waiting: usize,
}
