//! The sample domains as files, with what their goals come to under some logs.
#![tactic(auto)]

ghost use Rattle.examples.specs.Worked.{WorkedExamples};

// A card of a calibration, a line for each record: the header, the actions open, lamp on, flat, frame, lamp off and close, and three goals.
const CALIBRATION: &[u8; 138] = b"\
    \x53\x05\x06\x03\x01\0\0\0\0\0\0\
    \x07\x01\0\0\0\0\0\0\x04\0\0\0\0\0\0\x01\0\0\0\0\0\0\
    \x02\x02\0\0\0\0\0\0\
    \x0b\x03\0\0\0\0\0\0\x08\0\0\0\0\0\0\x02\0\
    \x0b\x04\0\0\0\0\0\0\x10\0\0\0\0\0\0\x03\0\
    \x0d\x02\0\0\0\0\0\0\x02\0\0\0\0\0\0\0\0\
    \x07\x04\0\0\0\0\0\0\x01\0\0\0\0\0\0\x04\0\0\0\0\0\0\
    \x01\x08\0\0\0\0\0\0\
    \x01\x10\0\0\0\0\0\0\
    \x01\x18\0\0\0\0\0\0";

// The bit map of the action that switches the lamp on, and the bit in it that marks the action.
const LAMP_ON: usize = 33;

const MARK: u8 = 0x10;

// A map of six places: the header, five moves, and three goals.
const SLEWS: &[u8; 30] = b"\
    \x4d\x06\x05\x03\0\
    \x06\x01\x02\0\
    \x07\x01\x02\x02\0\
    \x02\x03\
    \x07\x03\x02\x03\0\
    \x03\x03\x04\
    \x01\x02\
    \x01\x04\
    \x01\x05";

#[derive(Clone, Copy)]
pub struct SampleFiles {
    pub calibration: [u8; 138],
    /// the same card, with switching the lamp on marked
    pub marked: [u8; 138],
    pub slews: [u8; 30],
}

/// The files of the sample domains. Of the domains that are read from them every line of the worked examples holds.
pub fn sample_files() -> SampleFiles
    ensures { WorkedExamples result.calibration result.marked result.slews }
{
    let mut marked = *CALIBRATION;
    marked[LAMP_ON] |= MARK;
    SampleFiles {
        calibration: *CALIBRATION,
        marked,
        slews: *SLEWS,
    }
}
