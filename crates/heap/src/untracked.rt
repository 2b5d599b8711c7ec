//! Rows for a list whose entries need not be found: they note nothing.
ghost use Rattle.std.specs.Prelude.{◌≡◌};
ghost use Rattle.std.proofs.Common.{rules};

use crate::tracks::Tracks;

#[derive(Clone, Copy, Debug, Default, PartialEq, Eq)]
pub struct Untracked;

impl<T> Tracks<T> for Untracked {
    ghost noted = { λ _ _ _. Unit {0} };

    ghost apart = { λ _ _. Unit {0} };

    ghost kept = { λ before after. after ≡ before };

    ghost same = { Prim.search rules };

    ghost chain = { Prim.search rules };

    fn moved(_rows: &mut [Self], _entry: &T, _place: usize) {}
}
