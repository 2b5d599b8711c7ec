//! The least cost of each goal, and a cheapest plan.
use crate::refusals_in_words::Refused;
use domain::Domain;
use reports::row::Row;
use std::alloc::AllocError;
use tables::tables::Tables;

// The domain as it stands, with no log.
pub(crate) fn say_costs<D: Domain>(rt: &HostRuntime, domain: &D) -> anyhow::Result<()> {
    // of the tables' faults only want of memory can come, which is said in the words for any memory
    let mut tables = Tables::take(rt.alloc(), Tables::MOST).map_err(|_| AllocError)?;
    for goal in 0..domain.goal_count() {
        match tables.least_costs(domain, goal) {
            Ok((Some(cost), _)) => {
                let actions = Row(tables.plan(), "none");
                println!(rt; "  goal {goal} costs {cost}: actions {actions}")?;
            }
            Ok((None, _)) => println!(rt; "  goal {goal} has no plan")?,
            Err(fault) => println!(rt; "  goal {goal}: {}", Refused(fault))?,
        }
    }
    Ok(())
}
