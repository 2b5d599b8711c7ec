//! The actions and the goals of a compiled card.
ghost use Rattle.std.specs.Prelude.{◌≡◌, ◌<◌, length};
ghost use Rattle.cards.specs.Cards.{goal_at};
ghost use Rattle.compile.specs.Compiled.{union, effect, mark, marks, own_action, copy, with_log};

use crate::accepted::Accepted;
use cards::action::Action;
use domain::Domain;
use fluents::FluentSet;

// The fluents of either set. `FluentSet::with` promises which fluents these are; here it is an equality with the specification.
fn union(a: FluentSet, b: FluentSet) -> FluentSet
    ensures { result ≡ union a b }
{
    a.with(b)
}

impl Accepted<'_> {
    // How many entries the log has.
    pub(crate) fn entry_count(&self) -> u8
        ensures { result ≡ length self.now.log }
    {
        self.log.len() as u8
    }

    // The card's goal of a number, and the empty set where it has none, as in the specification.
    pub(crate) fn goal(&self, number: u8) -> FluentSet
        ensures { result ≡ goal_at self.now.card number }
    {
        // the default by name: the check does not find what `unwrap_or_default` gives
        self.card.goal(number).unwrap_or(FluentSet::default())
    }

    // The mark of an entry.
    fn mark(&self, place: u8) -> FluentSet
        requires { place < length self.now.log }
        ensures { result ≡ mark self.now.card place }
    {
        FluentSet::from(1u64 << (self.card.width() + place))
    }

    // The marks of all entries.
    fn marks(&self) -> FluentSet
        ensures { result ≡ marks self.now.card (length self.now.log) }
    {
        let mut set = FluentSet::default();
        // by a loop: tried as a fold over the numbers, which leaves the goal open that its result is the marks
        for place in 0..self.entry_count() {
            set = union(set, self.mark(place));
        }
        set
    }

    // What is left of what an action adds or deletes: nothing where the log does not let the action run.
    fn effect(&self, number: u8, marked: bool, set: FluentSet) -> FluentSet
        ensures { result ≡ effect self.now.log number marked set }
    {
        if self.log.may_run(number, marked) {
            set
        } else {
            FluentSet::default()
        }
    }

    // What becomes of an action of the card itself.
    pub(crate) fn own_action(&self, number: u8) -> Action
        requires { number < length self.now.card.actions }
        ensures { result ≡ own_action self.now.card self.now.log number }
    {
        let own = self.card.action(number).unwrap();
        Action {
            adds: self.effect(number, own.marked, own.adds),
            deletes: self.effect(number, own.marked, own.deletes),
            marked: false,
            ..own
        }
    }

    // The copy of an entry's action.
    pub(crate) fn copy(&self, place: u8) -> Action
        requires { place < length self.now.log }
        ensures { result ≡ copy self.now.card self.now.log place }
    {
        let entry = self.log.entry(usize::from(place)).unwrap();
        let own = self.card.action(entry).unwrap();
        // the mark of the entry before, and nothing before the first one
        let before = if place == 0 {
            FluentSet::default()
        } else {
            self.mark(place - 1)
        };
        Action {
            needs: union(own.needs, before),
            adds: union(own.adds, self.mark(place)),
            marked: false,
            ..own
        }
    }

    // The card's goal of a number, together with the log.
    pub(crate) fn with_log(&self, number: u8) -> FluentSet
        ensures { result ≡ with_log self.now.card self.now.log (goal_at self.now.card number) }
    {
        union(self.goal(number), self.marks())
    }
}
