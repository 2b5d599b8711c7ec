//! The files of a folder, and what is said of its domain.
use crate::costs_in_words::say_costs;
use crate::lists_in_words::judge_list;
use loading::any_domain::AnyDomain;
use reports::folders::bytes_or_empty;
use reports::refusal::Refusal;

// A domain's file that is missing stands for an empty one.
// not shared with `describe`: a function for both would be public and take a closure, so it would need a requires that it can be called
pub(crate) fn say_folder(rt: &HostRuntime, folder: &str) -> anyhow::Result<()> {
    let bytes = bytes_or_empty(rt, folder, "domain.bin")?;
    println!(rt; "{folder}")?;
    match AnyDomain::read(rt.alloc(), bytes.as_slice()) {
        Ok(domain) => {
            say_costs(rt, &domain)?;
            judge_list(rt, folder, &domain)?;
        }
        Err(fault) => println!(rt; "  {}", Refusal(fault.of_bytes(bytes.as_slice())?))?,
    }
    Ok(())
}
