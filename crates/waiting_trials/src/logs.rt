// The log of contracts that were turned down.
use line::log::{TurnedDown, note as noted};
use std::process::Abort;
use strip::row::{Full, Strip};

// A contract may be noted again, and the offers need not rise by one.
const ENTRIES: [TurnedDown; 4] = [
    TurnedDown {
        contract: 12,
        offers: 1,
    },
    TurnedDown {
        contract: 3,
        offers: 2,
    },
    TurnedDown {
        contract: 12,
        offers: 9,
    },
    TurnedDown {
        contract: 65535,
        offers: 300,
    },
];

fn holds_entries<'a>(rt: &impl Abort, log: &Strip<'a, TurnedDown>) {
    assert_eq!(rt; log.count(), 4);
    for (k, entry) in ENTRIES.iter().enumerate() {
        assert_eq!(rt; log.read(k), Some(*entry), "entry {k}");
    }
    assert_eq!(rt; log.read(4), None);
}

fn note_entries<'a>(rt: &impl Abort, log: &mut Strip<'a, TurnedDown>) {
    for (k, entry) in ENTRIES.iter().enumerate() {
        let answer = noted(log, entry.contract, entry.offers);
        assert_eq!(rt; answer, Ok(()), "entry {k}");
    }
}

#[test]
fn a_log_keeps_its_order(rt: HostRuntime) {
    let mut memory = [TurnedDown::default(); 5];
    let mut log = Strip::new(&mut memory);
    note_entries(&rt, &mut log);
    holds_entries(&rt, &log);
    assert_eq!(rt; log.free(), 1);
}

#[test]
fn a_full_log_keeps_all(rt: HostRuntime) {
    let mut memory = [TurnedDown::default(); 4];
    let mut log = Strip::new(&mut memory);
    note_entries(&rt, &mut log);
    assert_eq!(rt; noted(&mut log, 1, 1), Err(Full::NoPlace));
    holds_entries(&rt, &log);
}
