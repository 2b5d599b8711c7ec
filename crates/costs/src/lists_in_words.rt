//! A list of actions beside a domain, judged by a log. Places of the list and entries of the log count from 0.
use crate::refusals_in_words::Refused;
use domain::Domain;
use judge::carrying::carried;
use judge::course::Course;
use judge::marks::admits;
use logs::log::ObservationLog;
use reports::folders::{bytes_in, bytes_or_empty};
use reports::row::Row;
use std::alloc::{AllocError, Global};
use std::fmt;

// A list of actions to be judged beside a domain by a log.
#[derive(Drop)]
struct Judged<'a, D> {
    domain: &'a D,
    log: &'a ObservationLog,
    list: &'a [u8],
}

impl<D: Domain> Judged<'_, D> {
    fn goals_met(&self, heap: Global, state: u64) -> Result<Vec<u8>, AllocError> {
        (0..self.domain.goal_count())
            .filter(|goal| self.domain.meets(state, *goal))
            .collect(heap)
    }

    fn say_carried(&self, rt: &HostRuntime) -> anyhow::Result<()> {
        let mut places = [0; ObservationLog::MOST];
        let count = carried(self.log, self.list, &mut places)?;
        if let Some(action) = self.log.entry(count) {
            println!(rt; "  does not carry entry {count} of the log, action {action}")?;
        } else if count == 0 {
            println!(rt; "  carries the empty log")?;
        } else {
            let at = Row(&places[..count], "none");
            println!(rt; "  carries the log at places: {at}")?;
        }
        Ok(())
    }

    // What a list that runs is worth.
    fn say_worth(&self, rt: &HostRuntime, course: Course) -> anyhow::Result<()> {
        let cost = course.cost;
        let met = self.goals_met(rt.alloc(), course.last)?;
        let goals = Row(met.as_slice(), "none");
        let admitted = if admits(self.domain, self.log, self.list) {
            "yes"
        } else {
            "no"
        };
        println!(rt; "  cost {cost}")?;
        println!(rt; "  meets goals: {goals}")?;
        println!(rt; "  admitted: {admitted}")?;
        self.say_carried(rt)
    }

    fn say(&self, rt: &HostRuntime) -> anyhow::Result<()> {
        let course = Course::of(self.domain, self.list);
        let Course { ran, last, .. } = course;
        println!(rt; "  states: {}", Through { judged: self, ran })?;
        match self.list.get(ran) {
            Some(action) => {
                println!(rt; "  cannot run: action {action} at place {ran}, in state {last}")?;
                Ok(())
            }
            None => self.say_worth(rt, course),
        }
    }
}

// The states that the first actions of a list lead through, from the start on. It is no `Row`: they stand in no slice, and `Row` takes no iterator, since printing is lent what it prints and an iterator is used up by it.
#[derive(Drop)]
struct Through<'a, D> {
    judged: &'a Judged<'a, D>,
    ran: usize,
}

impl<D: Domain> fmt::Display for Through<'_, D> {
    fn fmt<W: fmt::Write>(&self, f: &mut fmt::Formatter<W>) -> fmt::Result {
        let Judged { domain, list, .. } = self.judged;
        let mut state = domain.start();
        write!(f, "{state}")?;
        for action in list.iter().take(self.ran) {
            state = domain.next(state, *action);
            write!(f, " {state}")?;
        }
        Ok(())
    }
}

fn say_list(rt: &HostRuntime, list: &[u8], entries: &[u8]) -> anyhow::Result<()> {
    let actions = Row(list, "empty");
    let seen = Row(entries, "empty");
    println!(rt; "  list: {actions}, log: {seen}")?;
    Ok(())
}

// Without a list there is nothing to judge.
pub(crate) fn judge_list<D: Domain>(
    rt: &HostRuntime,
    folder: &str,
    domain: &D,
) -> anyhow::Result<()> {
    let Some(list) = bytes_in(rt, folder, "plan.bin")? else {
        return Ok(());
    };
    let entries = bytes_or_empty(rt, folder, "log.bin")?;
    match ObservationLog::read(entries.as_slice(), domain.action_count()) {
        Ok(log) => {
            say_list(rt, list.as_slice(), entries.as_slice())?;
            let list = list.as_slice();
            let log = &log;
            Judged { domain, log, list }.say(rt)
        }
        Err(fault) => {
            println!(rt; "  {}", Refused(fault))?;
            Ok(())
        }
    }
}
