//! A domain, in the words of its kind.
use domain::Domain;
use std::fmt;

// The words that a kind of domain has for its parts.
pub(crate) trait InWords: Domain {
    // the kind, what its states are made of, and an action
    const KIND: &'static str;

    const STATES: &'static str;

    const ACTION: &'static str;

    // an action and a goal, as the domain has them
    type Action: Copy;

    type Goal: Copy;

    // what is printed of an action, and of the start or a goal
    type ActionWords: fmt::Display + Drop;

    type StateWords: fmt::Display + Drop;

    // How many fluents or places there are.
    fn size(&self) -> u8;

    fn all_actions(&self) -> &[Self::Action];

    fn all_goals(&self) -> &[Self::Goal];

    fn start_in_words(&self) -> Self::StateWords;

    fn action_in_words(&self, action: Self::Action) -> Self::ActionWords;

    fn goal_in_words(&self, goal: Self::Goal) -> Self::StateWords;
}

// What an action costs, and whether it is marked.
#[derive(Clone, Copy)]
pub(crate) struct Cost {
    pub(crate) cost: u16,
    pub(crate) marked: bool,
}

impl fmt::Display for Cost {
    fn fmt<W: fmt::Write>(&self, f: &mut fmt::Formatter<W>) -> fmt::Result {
        let cost = self.cost;
        let mark = if self.marked { ", marked" } else { "" };
        write!(f, "cost {cost}{mark}")
    }
}

pub(crate) fn say_domain<D: InWords>(rt: &HostRuntime, domain: &D) -> anyhow::Result<()> {
    let kind = D::KIND;
    let states = D::STATES;
    let action = D::ACTION;
    let width = domain.width();
    let size = domain.size();
    let actions = domain.action_count();
    let goals = domain.goal_count();
    let start = domain.start_in_words();
    println!(rt; "  {kind}: width {width}, {size} {states}, {actions} {action}s, {goals} goals")?;
    println!(rt; "  start: {start}")?;
    for (number, part) in domain.all_actions().iter().enumerate() {
        let words = domain.action_in_words(*part);
        println!(rt; "  {action} {number}: {words}")?;
    }
    for (number, part) in domain.all_goals().iter().enumerate() {
        let words = domain.goal_in_words(*part);
        println!(rt; "  goal {number}: {words}")?;
    }
    Ok(())
}
