//! Sets of fluents.
#![tactic(auto)]

ghost use Rattle.std.specs.Prelude.{◌≡◌, ◌↔◌, ℕ, ◌^◌, ◌<◌, not, ◌&&◌, ◌||◌, IsTrue};
ghost use Rattle.fluents.specs.Fluents.{holds, Within};

pub mod set_record;

use files::numbers::has_bits;

/// A set of fluents, numbered from 0: fluent i is in it where bit i is 1.
/// Every number is a set, so its bits are public, and clauses tell of sets by them.
#[derive(Clone, Copy, PartialEq, Eq, Default, Debug)]
pub struct FluentSet(pub u64);

impl From<u64> for FluentSet {
    ghost from_gives = { λ bits set. set.0 ≡ bits };

    fn from(bits: u64) -> FluentSet {
        FluentSet(bits)
    }
}

impl From<FluentSet> for u64 {
    ghost from_gives = { λ set bits. bits ≡ set.0 };

    fn from(set: FluentSet) -> u64 {
        set.0
    }
}

impl FluentSet {
    pub fn contains(self, fluent: u8) -> bool
        ensures { result ≡ holds fluent self.0 }
    {
        self.0
            .checked_shr(u32::from(fluent))
            .is_some_and(|rest| rest % 2 == 1)
    }

    /// Whether every fluent of this set is one of the other.
    pub fn within(self, other: FluentSet) -> bool
        ensures { IsTrue result ↔ Within self.0 other.0 }
    {
        if self.0 == 0 {
            return true;
        }
        self.0 & other.0 == self.0
    }

    /// Whether it has no fluent but the first ones.
    pub fn is_among(self, fluents: u8) -> bool
        ensures { IsTrue result ↔ (self.0 < 2 ^ fluents) }
    {
        has_bits(self.0, fluents)
    }

    pub fn with(self, other: FluentSet) -> FluentSet
        ensures { (i : ℕ) → holds i result.0 ≡ (holds i self.0 || holds i other.0) }
    {
        FluentSet(self.0 | other.0)
    }

    pub fn without(self, other: FluentSet) -> FluentSet
        ensures { (i : ℕ) → holds i result.0 ≡ (holds i self.0 && not (holds i other.0)) }
    {
        FluentSet(self.0 & !other.0)
    }
}
