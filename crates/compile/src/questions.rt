//! The questions that are asked before a log is compiled.
ghost use Rattle.std.specs.Prelude.{◌≡◌, IfOk};
ghost use Rattle.cards.specs.Contents.{contents};
ghost use Rattle.compile.specs.Accepting.{log_outcome};
ghost use Rattle.compile.specs.Questions.{accepted_log};

use crate::accepted::Accepted;
use crate::fault::CompileFault;
use cards::card::Card;
use domain::Domain;
use domain::limits::{MOST_ACTIONS, MOST_GOALS};
use files::kind::MOST_FLUENTS;
use logs::log::ObservationLog;

impl<'a> Accepted<'a> {
    // The card with the log that the bytes tell, if it keeps the limits of a card.
    pub(crate) fn new(card: &'a Card, bytes: &[u8]) -> Result<Accepted<'a>, CompileFault>
        ensures value { log_outcome result ≡ accepted_log (contents card.now) bytes.now }
        ensures card { IfOk result (λ accepted. accepted.card ≡ contents card.now) }
    {
        let log = ObservationLog::read(bytes, card.action_count())?;
        if usize::from(card.width()) + log.len() > usize::from(MOST_FLUENTS) {
            return Err(CompileFault::Fluents);
        }
        if usize::from(card.action_count()) + log.len() > usize::from(MOST_ACTIONS) {
            return Err(CompileFault::Actions);
        }
        if card.goal_count() + card.goal_count() > MOST_GOALS {
            return Err(CompileFault::Goals);
        }
        Ok(Accepted { card, log })
    }
}
