//! Says in words what a domain file holds, writes it again, and compares the bytes.
//! Arguments: folders with a file domain.bin in each; none stands for the working directory.
#![tactic(auto)]

mod cards_in_words;
mod domains_in_words;
mod files_in_words;
mod maps_in_words;

use crate::files_in_words::describe;
use reports::folders::folders;

fn main(rt: HostRuntime) -> anyhow::Result<()> {
    for folder in folders(&rt)? {
        describe(&rt, folder.as_str())?;
    }
    Ok(())
}
