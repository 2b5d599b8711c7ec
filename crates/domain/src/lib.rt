//! A planning domain: states, the actions between them with their costs, a start and goals.
#![tactic(auto)]

ghost use Rattle.std.specs.Prelude.{◌≡◌};
ghost use Rattle.domain.specs.Meaning.{Meaning, Limits};

pub mod fault;
pub mod limits;
pub mod room;

/// What an implementation means is one record, and each method answers by it.
/// The law is owed by every implementation, so that no domain breaks the limits.
pub trait Domain {
    ghost meaning: { Self → Meaning };

    /// A state is a number below 2^width.
    fn width(&self) -> u8
        ensures { result ≡ (meaning self.now).width };

    /// Actions are numbered from 0, and so are goals.
    fn action_count(&self) -> u8
        ensures { result ≡ (meaning self.now).actions };

    fn goal_count(&self) -> u8
        ensures { result ≡ (meaning self.now).goals };

    /// The state in which every plan begins.
    fn start(&self) -> u64
        ensures { result ≡ (meaning self.now).start };

    /// Whether the action can run in the state; no for a number that is no state or no action.
    fn runs(&self, state: u64, action: u8) -> bool
        ensures { result ≡ (meaning self.now).runs state action };

    /// The state that follows; the same one where the action cannot run.
    fn next(&self, state: u64, action: u8) -> u64
        ensures { result ≡ (meaning self.now).next state action };

    /// What the action costs; 0 for a number that is no action.
    fn cost(&self, action: u8) -> u16
        ensures { result ≡ (meaning self.now).cost action };

    /// A marked action is one that the console always logs.
    fn marked(&self, action: u8) -> bool
        ensures { result ≡ (meaning self.now).marked action };

    /// Whether the state meets the goal; no for a number that is no state or no goal.
    fn meets(&self, state: u64, goal: u8) -> bool
        ensures { result ≡ (meaning self.now).meets state goal };

    /// Whether a plan that ends in this state may count as whole.
    fn complete(&self, state: u64) -> bool
        ensures { result ≡ (meaning self.now).complete state };

    ghost limits: { (d : Self) → Limits (meaning d) };
}
