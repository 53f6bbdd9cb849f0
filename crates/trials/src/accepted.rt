// Small decks that are accepted.
use crate::case::{counts_of, judged};
use crate::samples::{P, Q};
use std::process::Abort;

// A deck, and its counts: groups, seats, reserves, trainees, wishes, bars.
#[derive(Clone, Copy)]
struct Good(&'static [u8], [usize; 6]);

// E may come in any part, and each part may be empty.
const PARTS: [Good; 10] = [
    Good(b"E\0\0", [0, 0, 0, 0, 0, 0]),
    Good(b"G\xff\0\0HERON   E\0\0", [1, 0, 0, 0, 0, 0]),
    Good(b"G\xff\0\0HERON   S\0\0E\0\0", [1, 1, 0, 0, 0, 0]),
    Good(b"G\xff\0\0HERON   R\0\0\0E\0\0", [1, 0, 1, 0, 0, 0]),
    Good(b"G\xff\0\0HERON   S\0\0R\0\0\0E\0\0", [1, 1, 1, 0, 0, 0]),
    Good(b"T\0\0\0ADA     E\0\0", [0, 0, 0, 1, 0, 0]),
    Good(b"G\xff\0\0HERON   T\0\0\0ADA     E\0\0", [1, 0, 0, 1, 0, 0]),
    Good(
        b"G\xff\0\0HERON   S\0\0T\0\0\0ADA     E\0\0",
        [1, 1, 0, 1, 0, 0],
    ),
    Good(
        b"G\xff\0\0HERON   R\0\0\0T\0\0\0ADA     E\0\0",
        [1, 0, 1, 1, 0, 0],
    ),
    Good(
        b"G\xff\0\0HERON   T\0\0\0ADA     B\0T\x01\0\0BEN     W\0\0\0\0E\x01\0",
        [1, 0, 0, 2, 1, 1],
    ),
];

// What may repeat, or go together.
const EQUALS: [Good; 6] = [
    // Equal groups and equal trainees, but for the lot.
    Good(
        b"G\xff\0\0HERON   G\xff\0\0HERON   E\0\0",
        [2, 0, 0, 0, 0, 0],
    ),
    Good(b"T\0\0\0ADA     T\0\x01\0ADA     E\0\0", [0, 0, 0, 2, 0, 0]),
    Good(b"G\xff\0\0HERON   S\0\0S\0\0S\0\0E\0\0", [1, 3, 0, 0, 0, 0]),
    // A subgroup that holds more than its dredger, and a wish for it.
    Good(
        b"G\xff\0\0HERON   G\0\x09\0ENGINE  T\0\0\0ADA     W\x01\0\0\0E\x01\0",
        [2, 0, 0, 1, 1, 0],
    ),
    // A wish and a bar for one dredger.
    Good(
        b"G\xff\0\0HERON   T\0\0\0ADA     W\0\0\0\0B\0E\x01\0",
        [1, 0, 0, 1, 1, 1],
    ),
    // The wish and the bar of another trainee.
    Good(
        b"G\xff\0\0HERON   T\0\0\0ADA     W\0\0\0\0B\0T\x01\0\0BEN     B\0W\0\0\0\0E\x02\0",
        [1, 0, 0, 2, 2, 2],
    ),
];

fn all_accepted(rt: &impl Abort, what: &str, cases: &[Good]) {
    for (i, case) in cases.iter().enumerate() {
        assert_eq!(rt; judged(case.0), Ok(counts_of(case.1)), "{what}, case {i}");
    }
}

#[test]
fn parts_and_repeats(rt: HostRuntime) {
    all_accepted(&rt, "parts", &PARTS);
    all_accepted(&rt, "equals", &EQUALS);
    assert_eq!(rt; judged(P.bytes), Ok(P.counts));
    assert_eq!(rt; judged(Q.bytes), Ok(Q.counts));
}
