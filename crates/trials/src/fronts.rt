// Decks cut at every byte.
use crate::case::{judged, refusal};
use crate::samples::{P, P_STARTS, Q, Q_STARTS};
use std::process::Abort;

// The last of these places up to `end`.
fn last_start(starts: &[usize], end: usize) -> usize {
    starts
        .iter()
        .rfind(|start| **start <= end)
        .copied()
        .unwrap_or(0)
}

// A front that ends with a whole record lacks a byte (3); one that ends inside a record has it short (6).
fn fronts_refused(rt: &impl Abort, deck: &[u8], starts: &[usize]) {
    // Each cut, by its number.
    for end in 0..deck.len() {
        let start = last_start(starts, end);
        let number = if start == end { 3 } else { 6 };
        assert_eq!(rt;
            judged(&deck[..end]),
            Err(refusal(number, start)),
            "cut at {end}"
        );
    }
}

#[test]
fn fronts_of_decks(rt: HostRuntime) {
    assert_eq!(rt; P.bytes.len(), 105);
    fronts_refused(&rt, P.bytes, &P_STARTS);
    assert_eq!(rt; Q.bytes.len(), 125);
    fronts_refused(&rt, Q.bytes, &Q_STARTS);
}
