// Decks of the most bytes that a deck has, and of one more.
use crate::case::{Case, judged, refusal};
use std::alloc::{AllocError, Global};
use std::test::Fail;

// Fronts of decks that are zero to their end.
const FRONTS: [Case; 10] = [
    Case(b"", 4, 0),
    Case(b"G\xff\x01\0HERON   ", 4, 12),
    Case(b"W", 5, 0),
    Case(b"G", 8, 0),
    Case(b"S", 8, 0),
    Case(b"T\0\0\0ADA     T\0\0\0BEN     ", 9, 12),
    Case(b"G\xff\x01\0HERON   R\0\0\0R", 9, 16),
    Case(b"E\x01", 10, 0),
    Case(b"E", 11, 3),
    Case(b"E\0\0E", 11, 3),
];

// A front, and zeros after it.
fn padded(heap: Global, front: &[u8], size: usize) -> Result<Vec<u8>, AllocError> {
    let mut deck = Vec::from_slice(heap, front)?;
    deck.resize(size, 0)?;
    Ok(deck)
}

#[test]
fn long_and_too_long(rt: HostRuntime) -> Result<(), Fail> {
    for (i, front) in FRONTS.iter().enumerate() {
        let deck = padded(rt.alloc(), front.0, 15363)?;
        assert_eq!(rt; judged(&deck), Err(front.refusal()), "front {i}");
        let longer = padded(rt.alloc(), front.0, 15364)?;
        assert_eq!(rt; judged(&longer), Err(refusal(2, 0)), "longer front {i}");
    }
    Ok(())
}
