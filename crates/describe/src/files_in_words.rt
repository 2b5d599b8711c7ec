//! A domain file of either kind.
use crate::domains_in_words::say_domain;
use domain::fault::{Numbered, WriteFault};
use loading::any_domain::AnyDomain;
use reports::folders::bytes_or_empty;
use reports::refusal::Refusal;

// Compares a file with what was written again into a place of its length.
fn say_again(
    rt: &HostRuntime,
    bytes: &[u8],
    again: &[u8],
    written: Result<usize, WriteFault>,
) -> anyhow::Result<()> {
    match written {
        Ok(length) => {
            let verdict = if bytes == again {
                "the same bytes"
            } else {
                "other bytes"
            };
            println!(rt; "  written again: {length} bytes, {verdict}")?;
        }
        Err(fault) => {
            let number = fault.number();
            println!(rt; "  written again: refused {number}")?;
        }
    }
    Ok(())
}

fn say_file(rt: &HostRuntime, bytes: &[u8], domain: &AnyDomain) -> anyhow::Result<()> {
    match domain {
        AnyDomain::Card(card) => say_domain(rt, card)?,
        AnyDomain::Map(map) => say_domain(rt, map)?,
    }
    let mut again = vec![in rt.alloc(); 0u8; bytes.len()]?;
    let written = domain.write(again.as_mut_slice());
    say_again(rt, bytes, again.as_slice(), written)
}

// A file that is missing stands for an empty one.
// not shared with `costs`: a function for both would be public and take a closure, so it would need a requires that it can be called
pub(crate) fn describe(rt: &HostRuntime, folder: &str) -> anyhow::Result<()> {
    let bytes = bytes_or_empty(rt, folder, "domain.bin")?;
    println!(rt; "{folder}")?;
    match AnyDomain::read(rt.alloc(), bytes.as_slice()) {
        Ok(domain) => say_file(rt, bytes.as_slice(), &domain)?,
        Err(fault) => println!(rt; "  {}", Refusal(fault.of_bytes(bytes.as_slice())?))?,
    }
    Ok(())
}
