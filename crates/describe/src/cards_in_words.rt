//! A set-up card.
use crate::domains_in_words::{Cost, InWords};
use cards::action::Action;
use cards::card::Card;
use domain::Domain;
use fluents::FluentSet;
use std::fmt;

// The fluents of a set that are below the width, in order. It is no `Row`: they stand in no slice, and `Row` takes no iterator, since printing is lent what it prints and an iterator is used up by it.
#[derive(Clone, Copy)]
pub(crate) struct Fluents {
    width: u8,
    set: FluentSet,
}

impl fmt::Display for Fluents {
    fn fmt<W: fmt::Write>(&self, f: &mut fmt::Formatter<W>) -> fmt::Result {
        let mut fluents = (0..self.width).filter(|fluent| self.set.contains(*fluent));
        let Some(first) = fluents.next() else {
            return f.write_str("nothing");
        };
        write!(f, "{first}")?;
        for fluent in fluents {
            write!(f, " {fluent}")?;
        }
        Ok(())
    }
}

// An action of a card of this width.
#[derive(Clone, Copy)]
pub(crate) struct CardAction {
    width: u8,
    action: Action,
}

impl fmt::Display for CardAction {
    fn fmt<W: fmt::Write>(&self, f: &mut fmt::Formatter<W>) -> fmt::Result {
        let width = self.width;
        let Action {
            needs,
            adds,
            deletes,
            cost,
            marked,
        } = self.action;
        let needs = Fluents { width, set: needs };
        let adds = Fluents { width, set: adds };
        let deletes = Fluents {
            width,
            set: deletes,
        };
        let cost = Cost { cost, marked };
        write!(f, "needs {needs}; adds {adds}; deletes {deletes}; {cost}")
    }
}

impl InWords for Card {
    const KIND: &'static str = "set-up card";

    const STATES: &'static str = "fluents";

    const ACTION: &'static str = "action";

    type Action = Action;

    type Goal = FluentSet;

    type ActionWords = CardAction;

    type StateWords = Fluents;

    fn size(&self) -> u8 {
        self.width()
    }

    fn all_actions(&self) -> &[Action] {
        self.actions()
    }

    fn all_goals(&self) -> &[FluentSet] {
        self.goals()
    }

    fn start_in_words(&self) -> Fluents {
        self.goal_in_words(FluentSet::from(self.start()))
    }

    fn action_in_words(&self, action: Action) -> CardAction {
        let width = self.width();
        CardAction { width, action }
    }

    fn goal_in_words(&self, set: FluentSet) -> Fluents {
        let width = self.width();
        Fluents { width, set }
    }
}
