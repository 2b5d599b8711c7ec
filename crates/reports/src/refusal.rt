//! A domain file that is refused.
ghost use Rattle.std.specs.Prelude.{◌≡◌, Some};
ghost use Rattle.reports.specs.Words.{question_words, refusal_line};

use domain::fault::{Numbered, ReadFault};
use std::fmt;

/// What is asked of a file where the fault stands.
pub fn question(fault: ReadFault) -> &'static str
    ensures { result.now ≡ question_words fault }
{
    match fault {
        ReadFault::Letter(_) => "is the first byte the letter of a kind?",
        ReadFault::Header(_) => "is the header whole?",
        ReadFault::Count(_) => "are the counts within their limits?",
        ReadFault::Start(_) => "is the start a state?",
        ReadFault::Cut(_) => "is the record whole?",
        ReadFault::Bits(_) => "has the bit map only defined bits?",
        ReadFault::Field(_) => "is the field in range, and other than its absent value?",
        ReadFault::End(_) => "does the file end here?",
    }
}

/// The line on a refused file: the number of the fault, where it stands, and what is asked there.
#[derive(Clone, Copy)]
pub struct Refusal(pub ReadFault);

impl fmt::Display for Refusal {
    ghost output = { λ refusal. Some (refusal_line refusal.0) };

    fn fmt<W: fmt::Write>(&self, f: &mut fmt::Formatter<W>) -> fmt::Result {
        let fault = self.0;
        let number = fault.number();
        let position = fault.position();
        let asked = question(fault);
        write!(f, "refused {number} {position}: {asked}")
    }
}
