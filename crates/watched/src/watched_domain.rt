//! A watched domain is again a domain.
ghost use Rattle.std.specs.Prelude.{◌≡◌, ◌+◌, ◌^◌, nat_lt};
ghost use Rattle.logs.specs.Entries.{entries};
ghost use Rattle.plans.specs.Watched.{is_narrow, extra_bits, log_over, below, count, watched};
ghost use Rattle.logs.proofs.Fronts.{few_entries};
ghost use Rattle.plans.proofs.Watching.{watched_limits};

use crate::watched::Watched;
use domain::Domain;
use domain::limits::MOST_WIDTH_BELOW;
use logs::following::{advance, may_run};

// The bits of a count: a log has at most 20 entries.
const COUNT_BITS: u8 = 5;

impl<D: Domain> Watched<D> {
    // Whether the domain leaves room for a count of entries.
    pub(crate) fn is_narrow(&self) -> bool
        ensures { result ≡ is_narrow (D.meaning self.now.domain) }
    {
        self.domain.width() <= MOST_WIDTH_BELOW
    }

    // How many bits a state has: those of the domain, and those of the count where there is room.
    fn bits(&self) -> u8
        ensures { result ≡ (D.meaning self.now.domain).width + extra_bits (D.meaning self.now.domain) }
    {
        self.domain.width() + if self.is_narrow() { COUNT_BITS } else { 0 }
    }

    // The entries that are followed: none over a domain that is too wide.
    fn followed(&self) -> &[u8]
        ensures { result.now ≡ log_over (D.meaning self.now.domain) (entries self.now.log) }
    {
        // none is the front of the same slice: with a slice of another place a search takes longer
        let entries = self.log.as_slice();
        if self.is_narrow() {
            entries
        } else {
            &entries[..0]
        }
    }

    // The state below.
    fn below(&self, state: u64) -> u64
        ensures { result ≡ below (D.meaning self.now.domain) state }
    {
        state % (1u64 << self.domain.width())
    }

    // How many entries were carried.
    fn count(&self, state: u64) -> u64
        ensures { result ≡ count (D.meaning self.now.domain) state }
    {
        state >> self.domain.width()
    }

    fn is_state(&self, state: u64) -> bool
        ensures { result ≡ nat_lt state (2 ^ ((D.meaning self.now.domain).width + extra_bits (D.meaning self.now.domain))) }
    {
        // by a comparison: `has_bits` asks the same, but `files` is no crate below this one
        state < 1u64 << self.bits()
    }
}

impl<D: Domain> Domain for Watched<D> {
    ghost meaning = { λ x. watched (D.Domain.meaning x.domain) (entries x.log) };

    ghost limits = { λ d. watched_limits (D.Domain.meaning d.domain) (entries d.log) (D.Domain.limits d.domain) (few_entries d.log) };

    fn width(&self) -> u8 {
        self.bits()
    }

    fn action_count(&self) -> u8 {
        self.domain.action_count()
    }

    fn goal_count(&self) -> u8 {
        self.domain.goal_count()
    }

    fn start(&self) -> u64 {
        self.domain.start()
    }

    fn runs(&self, state: u64, action: u8) -> bool {
        let log = self.followed();
        self.is_state(state)
            && self.count(state) <= log.len() as u64
            && self.domain.runs(self.below(state), action)
            && may_run(log, action, self.domain.marked(action))
    }

    fn next(&self, state: u64, action: u8) -> u64 {
        if !self.runs(state, action) {
            return state;
        }
        let below = self.below(state);
        let carried = advance(self.followed(), self.count(state) as usize, action);
        self.domain.next(below, action) + ((carried as u64) << self.domain.width())
    }

    fn cost(&self, action: u8) -> u16 {
        self.domain.cost(action)
    }

    // The log has judged the marks.
    fn marked(&self, _action: u8) -> bool {
        false
    }

    fn meets(&self, state: u64, goal: u8) -> bool {
        self.is_state(state) && self.domain.meets(self.below(state), goal)
    }

    fn complete(&self, state: u64) -> bool {
        self.is_state(state)
            && self.domain.complete(self.below(state))
            && self.count(state) == self.followed().len() as u64
    }
}
