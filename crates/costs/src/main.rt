//! Says what each goal of a domain costs, with a cheapest plan, and judges a list of actions beside the domain by a log.
//! Arguments: folders with a file domain.bin in each, and maybe plan.bin and log.bin; none stands for the working directory.
#![tactic(auto)]

mod costs_in_words;
mod files_in_words;
mod lists_in_words;
mod refusals_in_words;

use crate::files_in_words::say_folder;
use reports::folders::folders;

fn main(rt: HostRuntime) -> anyhow::Result<()> {
    for folder in folders(&rt)? {
        say_folder(&rt, folder.as_str())?;
    }
    Ok(())
}
