//! Finding rows by their states.
ghost use Rattle.std.specs.Prelude.{◌≡◌, ℕ, ◌+◌, ◌<◌, ◌↔◌, length, IsSome, IfSome, if◌then◌else◌, Some, None, MatchOption, nat_lt};
ghost use Rattle.table.specs.Index.{chain_of, Indexed, Found, Put, Linked, Added};
ghost use Rattle.table.specs.Rows.{blank_row, at};

use crate::row::{Node, Row};

// The chain of a state in a table of that many rows. The multiplier is 2^64 by the golden ratio, which parts numbers that are near one another.
fn chain_of(state: u64, size: usize) -> usize
    requires { 0 < size }
    ensures value { result ≡ chain_of size state }
    ensures upper_bound { result < size }
{
    (state.wrapping_mul(0x9E37_79B9_7F4A_7C15) >> 32) as usize % size
}

/// Forgets all rows.
pub fn clear(rows: &mut [Row])
    ensures rows { (k : ℕ) → at rows.new k ≡ blank_row }
    ensures indexed { Indexed rows.new 0 }
{
    rows.fill(Row::default());
}

/// The row of a state among the first len. It is there if the table has it, provided that the rows can be found.
pub fn find(rows: &[Row], len: usize, state: u64) -> Option<usize>
    ensures row { IfSome result (λ i. (i < len) × ((at rows.now i).node.state ≡ state)) }
    ensures found { Indexed rows.now len → Found rows.now len state result }
{
    if rows.is_empty() {
        return None;
    }
    let mut bound = len.min(rows.len());
    let mut seek = rows[chain_of(state, rows.len())].link.head;
    while let Some(i) = seek {
        // the rows of a chain fall: what does not is not followed
        if i >= bound {
            return None;
        }
        if rows[i].node.state == state {
            return Some(i);
        }
        bound = i;
        seek = rows[i].link.next;
    }
    None
}

/// Another node in the row i; none if there is no such row. A row whose state stays is found as before.
/// The answer is an option and no bool, so that `add` hands it up by `?`.
pub fn put(rows: &mut [Row], i: usize, node: Node) -> Option<()>
    ensures value { IsSome result ↔ (i < length rows.old) }
    ensures rows { MatchOption result (rows.new ≡ rows.old) (λ done. Put rows.old i node rows.new) }
    ensures indexed { (n : ℕ) → (at rows.old i).node.state ≡ node.state → Indexed rows.old n → Indexed rows.new n }
{
    if i >= rows.len() {
        return None;
    }
    rows[i].node = node;
    Some(())
}

// Puts the row i at the head of the chain of its state.
fn link(rows: &mut [Row], i: usize)
    requires { i < length rows.old }
    ensures { Linked rows.old i rows.new }
{
    let chain = chain_of(rows[i].node.state, rows.len());
    rows[i].link.next = rows[chain].link.head;
    rows[chain].link.head = Some(i);
}

/// One row more, of a state that none of the first len has; the answer is how many there are then, if there is a place for it.
pub fn add(rows: &mut [Row], len: usize, node: Node) -> Option<usize>
    ensures value { result ≡ (if nat_lt len (length rows.old) then Some (len + 1) else None) }
    ensures rows { MatchOption result (rows.new ≡ rows.old) (λ n. Added rows.old len node rows.new) }
{
    put(rows, len, node)?;
    link(rows, len);
    Some(len + 1)
}
