//! Rounds over the goals of a domain.
use crate::answers_in_words::say;
use anyhow::anyhow;
use domain::Domain;
use domain::fault::Numbered;
use loading::any_domain::AnyDomain;
use std::alloc::AllocError;
use std::fs;
use tables::tables::Tables;
use watched::watched::Watched;

// Searches for every goal in every round, under an empty log; the answers of the last round are printed.
// One loop with one call of the search, and the watched domain a value of its own here, so that the search is a part of the loop: with two calls, or a borrowed domain, it takes far longer.
fn search_rounds<D: Domain + Drop>(rt: &HostRuntime, domain: D, rounds: u32) -> anyhow::Result<()> {
    let domain = Watched::new(domain);
    // of the tables' faults only want of memory can come, which is said in the words for any memory
    let mut tables = Tables::take(rt.alloc(), Tables::MOST).map_err(|_| AllocError)?;
    for round in 1..=rounds {
        for goal in 0..domain.goal_count() {
            let found = tables.least_costs(&domain, goal);
            if round == rounds {
                say(rt, goal, found, tables.plan())?;
            }
        }
    }
    Ok(())
}

// The rounds on the domain in the folder.
pub(crate) fn search_file(rt: &HostRuntime, folder: &str, rounds: u32) -> anyhow::Result<()> {
    let path = format!(in rt.alloc(); "{folder}/domain.bin")?;
    let bytes = fs::read(rt, path.as_str())?;
    match AnyDomain::read(rt.alloc(), bytes.as_slice()) {
        // each kind by itself: a search that asks at each step which kind it is takes far longer
        Ok(AnyDomain::Card(card)) => search_rounds(rt, card, rounds),
        Ok(AnyDomain::Map(map)) => search_rounds(rt, map, rounds),
        Err(fault) => {
            let number = fault.of_bytes(bytes.as_slice())?.number();
            Err(anyhow!("domain.bin is refused with {number}"))
        }
    }
}
