//! The log from empty to full, and past it.
use crate::log::ObservationLog;
use domain::fault::LogFault;
use std::process::Abort;

// A log to which the entries 100, 101 and so on were offered.
#[derive(Clone, Copy)]
struct Row {
    offered: u8,
    // how many entries it has, and the last one
    len: u8,
    last: Option<u8>,
    // whether it takes one more
    taken: Result<(), LogFault>,
}

const ROWS: [Row; 5] = [
    Row {
        offered: 0,
        len: 0,
        last: None,
        taken: Ok(()),
    },
    Row {
        offered: 1,
        len: 1,
        last: Some(100),
        taken: Ok(()),
    },
    Row {
        offered: 19,
        len: 19,
        last: Some(118),
        taken: Ok(()),
    },
    Row {
        offered: 20,
        len: 20,
        last: Some(119),
        taken: Err(LogFault::Full),
    },
    Row {
        offered: 23,
        len: 20,
        last: Some(119),
        taken: Err(LogFault::Full),
    },
];

fn offered(count: u8) -> ObservationLog {
    let mut log = ObservationLog::new();
    for number in 0..count {
        let _ = log.append(number.wrapping_add(100));
    }
    log
}

fn last(log: &ObservationLog) -> Option<u8> {
    log.as_slice().last().copied()
}

// Dropped from its end, the log gives its entries back, down to the first, and then none.
fn emptied(rt: &impl Abort, mut log: ObservationLog, len: u8) {
    for number in (0..len).rev() {
        assert_eq!(rt; log.drop_last(), Some(number.wrapping_add(100)));
    }
    assert_eq!(rt; log.drop_last(), None);
    assert_eq!(rt; log.len(), 0);
}

#[test]
fn from_empty_to_full(rt: HostRuntime) {
    for row in ROWS {
        let len = usize::from(row.len);
        let mut log = offered(row.offered);
        assert_eq!(rt; log.len(), len);
        assert_eq!(rt; last(&log), row.last);
        assert_eq!(rt; log.entry(len), None);
        assert_eq!(rt; log.append(7), row.taken);
        if row.taken.is_ok() {
            assert_eq!(rt; log.entry(len), Some(7));
            assert_eq!(rt; log.drop_last(), Some(7));
        }
        assert_eq!(rt; log.len(), len);
        assert_eq!(rt; last(&log), row.last);
        emptied(&rt, log, row.len);
    }
}
