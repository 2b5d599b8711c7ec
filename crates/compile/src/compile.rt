//! A log compiled into a card.
ghost use Rattle.std.specs.Prelude.{◌≡◌, ℕ, ◌+◌, ◌<◌, ◌≤◌, ◌++◌, map, IfOk, IfErr, vec_len, vec_capacity};
ghost use Rattle.std.specs.List.{range_with_len};
ghost use Rattle.domain.specs.Rooms.{SameRoom};
ghost use Rattle.cards.specs.Contents.{contents};
ghost use Rattle.compile.specs.Compiled.{compiled};
ghost use Rattle.compile.specs.Law.{StandsByCosts, CompileLaw};
ghost use Rattle.compile.specs.Outcome.{compile_log, outcome};

use crate::accepted::Accepted;
use crate::fault::CompileFault;
use cards::action::Action;
use cards::card::Card;
use domain::Domain;
use domain::room::{Room, Unfilled};
use fluents::FluentSet;

// What the closure makes of the numbers below the count goes, in their order, behind what the place holds.
// So the values of a function are added where the closure answers by that function.
fn push_each<T, F: Fn(u8) -> T>(place: &mut Vec<T>, count: u8, part: F)
    requires wide { vec_len place.old + count ≤ vec_capacity place.old }
    requires callable { (number : ℕ) → number < count → F.pre part number }
    ensures items { (of : ℕ → T) → ((number : ℕ) (x : T) → number < count → F.post part number x → x ≡ of number) → place.new.items ≡ place.old.items ++ map of (range_with_len 0 count) }
    ensures len { vec_len place.new ≡ vec_len place.old + count }
    ensures capacity { vec_capacity place.new ≡ vec_capacity place.old }
{
    // by a loop: `extend` may fail for want of memory, and this room is reserved
    for number in 0..count {
        place.push_reserved(part(number));
    }
}

impl Accepted<'_> {
    // The actions and the goals of the compiled card, in the room for them.
    fn parts(&self, room: Room<Action, FluentSet>) -> (Vec<Action>, Vec<FluentSet>)
        ensures actions { result.0.items ≡ (compiled self.now.card self.now.log).actions }
        ensures goals { result.1.items ≡ (compiled self.now.card self.now.log).goals }
    {
        let Room {
            mut actions,
            mut goals,
        } = room;
        let action_count = self.card.action_count();
        let goal_count = self.card.goal_count();
        push_each(&mut actions, action_count, |number| self.own_action(number));
        push_each(&mut actions, self.entry_count(), |place| self.copy(place));
        push_each(&mut goals, goal_count, |number| self.goal(number));
        push_each(&mut goals, goal_count, |number| self.with_log(number));
        (actions, goals)
    }

    // The compiled card, in the room for it.
    fn compiled(&self, room: Room<Action, FluentSet>) -> Card
        ensures { contents result ≡ compiled self.now.card self.now.log }
    {
        let (actions, goals) = self.parts(room);
        let fluents = self.card.width() + self.entry_count();
        let start = FluentSet::from(self.card.start());
        Card::new(fluents, start, actions, goals).unwrap()
    }
}

// The card that the log is compiled into, in the room that is handed over. A refusal gives the room back.
// Of every card and log: a goal stands exactly when it has, on the compiled card, a least cost in common with the goal together with the log.
pub(crate) fn compile(
    card: &Card,
    log: &[u8],
    room: Room<Action, FluentSet>,
) -> Result<Card, Unfilled<CompileFault, Action, FluentSet>>
    ensures value { outcome result ≡ compile_log (contents card.now) log.now }
    ensures room { IfErr result (λ u. SameRoom room u.room) }
    ensures stands { IfOk result (λ new. StandsByCosts (contents card.now) log.now (contents new)) }
    ensures law { CompileLaw }
{
    // a match and no `?`: either arm takes the room
    match Accepted::new(card, log) {
        Ok(accepted) => Ok(accepted.compiled(room)),
        Err(fault) => Err(Unfilled { fault, room }),
    }
}
