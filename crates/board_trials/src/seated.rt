// The seats board.
use crate::book::DeckBook;
use crate::case::{Trial, agrees};
use crate::decks::{P, P_SEATED, SEATED};
use seats::seats::Seats;
use std::test::Fail;

const ON_P: [Trial; 2] = [
    // the first seat takes 2, with the lowest lot; the second takes 0, with more points than 5
    Trial(
        b"\x01\0\x01\0\0\x01",
        &[(0, 0), (1, 0), (0, 0), (1, 0), (1, 0), (3, 0)],
    ),
    // TERN has no seat
    Trial(
        b"\x01\x01\x01\x01\x01\x01",
        &[(0, 0), (3, 2), (0, 0), (3, 2), (3, 2), (3, 0)],
    ),
];

const ON_SEATED: [Trial; 3] = [
    // rule 2 takes 2 (term 3, more points than 5), rule 1 takes 7 (lot 0), rule 0 takes 0; TERN has a seat to spare, WREN has none
    Trial(
        b"\x01\x01\x01\x01\x01\x01\x01\x01",
        &[
            (0, 0),
            (0, 0),
            (0, 0),
            (3, 2),
            (3, 0),
            (3, 0),
            (0, 0),
            (0, 0),
        ],
    ),
    // more seats than contracts
    Trial(
        b"\0\0\0\x07\xff\x02\0\0",
        &[
            (1, 0),
            (1, 0),
            (1, 0),
            (3, 2),
            (0, 0),
            (0, 0),
            (1, 0),
            (1, 0),
        ],
    ),
    // rule 2 takes 5 (term 3), rule 1 takes 7 (lot 0), rule 0 takes 0
    Trial(
        b"\x01\0\0\0\x01\x01\0\x01",
        &[
            (0, 0),
            (1, 0),
            (1, 0),
            (1, 0),
            (3, 0),
            (0, 0),
            (1, 0),
            (0, 0),
        ],
    ),
];

#[test]
fn seats_take_turns(rt: HostRuntime) -> Result<(), Fail> {
    let p_book = DeckBook::of(P_SEATED)?;
    let p = p_book.deck();
    agrees(&rt, "P", &Seats::of(&p), &p, &ON_P);
    let book = DeckBook::of(SEATED)?;
    let deck = book.deck();
    agrees(&rt, "three rules", &Seats::of(&deck), &deck, &ON_SEATED);
    Ok(())
}

// Three seats at dredger 0 are enough for 0, 2 and 5; those at 1 are for no dredger of P.
const BY_SEATED: [Trial; 1] = [Trial(
    b"\x01\x01\x01\x01\x01\x01",
    &[(0, 0), (3, 2), (0, 0), (3, 2), (3, 2), (0, 0)],
)];

// P has no seat at all.
const BY_P: [Trial; 1] = [Trial(
    b"\x01\0\x01\0\0\0\0\x01",
    &[
        (3, 0),
        (1, 0),
        (3, 0),
        (1, 0),
        (1, 0),
        (1, 0),
        (1, 0),
        (3, 0),
    ],
)];

#[test]
fn seats_of_another_deck(rt: HostRuntime) -> Result<(), Fail> {
    let p_book = DeckBook::of(P)?;
    let p = p_book.deck();
    let book = DeckBook::of(SEATED)?;
    let deck = book.deck();
    agrees(&rt, "seats", &Seats::of(&deck), &p, &BY_SEATED);
    agrees(&rt, "no seats", &Seats::of(&p), &deck, &BY_P);
    Ok(())
}
