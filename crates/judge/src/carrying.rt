//! What a list of actions carries of a log.
ghost use Rattle.std.specs.Prelude.{◌≡◌, length, drop, is_ok, IfOk, IfErr, MatchResult, nat_le};
ghost use Rattle.logs.specs.Entries.{entries};
ghost use Rattle.judge.specs.Carried.{CarriedAt, NoneLonger};
ghost use Rattle.judge.specs.declared.fault.CarryFault.TheVariants.{Place};

use crate::fault::CarryFault;
use logs::log::ObservationLog;

/// How many entries from the log's front the list carries. The caller lends the places, and nothing is allocated.
/// Their places go into the front of `places`, whose rest stays; where it is shorter than the log, nothing is written.
pub fn carried(log: &ObservationLog, list: &[u8], places: &mut [usize]) -> Result<usize, CarryFault>
    ensures room { is_ok result ≡ nat_le (length (entries log.now)) (length places.old) }
    ensures fault { IfErr result (λ fault. fault ≡ Place) }
    ensures rest { MatchResult result (λ count. drop count places.new ≡ drop count places.old) (λ _. places.new ≡ places.old) }
    ensures carried { IfOk result (λ count. CarriedAt (entries log.now) list.now places.new count) }
    ensures most { IfOk result (λ count. NoneLonger (entries log.now) list.now count) }
{
    if places.len() < log.len() {
        return Err(CarryFault::Place);
    }
    // by an index: not every action takes a place, and the count is the answer; `get_mut(count)` would add a case that never comes
    let mut count = 0;
    for (place, action) in list.iter().enumerate() {
        let grown = log.advance(count, *action);
        if grown > count {
            places[count] = place;
        }
        count = grown;
    }
    Ok(count)
}
