//! Where each entry stands, noted in a second slice, so that an entry is found without a search through the list.
ghost use Rattle.std.specs.Prelude.{ℕ, List};

/// The rows of the second slice, for entries of type T.
pub trait Tracks<T>: Sized {
    // The rows note that the entry stands at the place.
    ghost noted: { List Self → T → ℕ → Type 0 };

    // The first entry keeps its note when the second one is noted.
    ghost apart: { T → T → Type 0 };

    // Nothing of the rows differs but the places that they note.
    ghost kept: { List Self → List Self → Type 0 };

    /// Notes that the entry stands at the place.
    fn moved(rows: &mut [Self], entry: &T, place: usize)
        ensures here { noted rows.new entry.now place }
        ensures others { (e : T) (p : ℕ) → apart e entry.now → noted rows.old e p → noted rows.new e p }
        ensures kept { kept rows.old rows.new };

    ghost same: { (rows : List Self) → kept rows rows };

    ghost chain: { (a b c : List Self) → kept a b → kept b c → kept a c };
}
