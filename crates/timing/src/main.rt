//! Searches for each goal of a domain file, under an empty log, as many rounds as are asked for, and says what the last round finds.
//! Arguments: a folder with a file domain.bin, and the number of rounds.
#![tactic(auto)]

mod answers_in_words;
mod rounds;

use crate::rounds::search_file;
use anyhow::Context;
use std::env;

fn main(rt: HostRuntime) -> anyhow::Result<()> {
    let mut words = env::args(&rt)?.skip(1);
    let folder = words
        .next()
        .context("a folder and a number of rounds are wanted")?;
    let rounds = words
        .next()
        .context("a number of rounds is wanted after the folder")?;
    search_file(&rt, folder.as_str(), rounds.as_str().parse::<u32>()?)
}
