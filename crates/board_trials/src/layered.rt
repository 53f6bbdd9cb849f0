// Layers on a board that keeps what has points enough.
use crate::book::DeckBook;
use crate::case::{Trial, agrees, said};
use crate::decks::{P, R};
use bar::bar::Bar;
use guest::threshold::Threshold;
use guest::under::choose_enough;
use reserve::reserve::Reserve;
use std::test::Fail;

const ALL: &[u8] = b"\x01\x01\x01\x01\x01\x01\x01\x01\x01";

// Just 50 points are enough. Every mark but 0 is in, whatever its value.
const THRESHOLD: [Trial; 3] = [
    Trial(
        ALL,
        &[
            (0, 0),
            (7, 50),
            (0, 0),
            (0, 0),
            (0, 0),
            (7, 50),
            (7, 50),
            (7, 50),
            (0, 0),
        ],
    ),
    Trial(
        b"\x02\xff\x07\0\xff\x02\0\0\0",
        &[
            (0, 0),
            (7, 50),
            (0, 0),
            (1, 0),
            (0, 0),
            (7, 50),
            (1, 0),
            (1, 0),
            (1, 0),
        ],
    ),
    Trial(
        b"\0\0\0\0\0\0\0\0\0",
        &[
            (1, 0),
            (1, 0),
            (1, 0),
            (1, 0),
            (1, 0),
            (1, 0),
            (1, 0),
            (1, 0),
            (1, 0),
        ],
    ),
];

// At HERON the flagged ones rank 8, 2, 0, 6, and two of them take the places; TERN has more places than flagged applicants.
const RESERVED: [Trial; 4] = [
    Trial(
        ALL,
        &[
            (7, 55),
            (0, 0),
            (0, 0),
            (0, 0),
            (0, 0),
            (7, 55),
            (7, 55),
            (0, 0),
            (0, 0),
        ],
    ),
    // 4 is unflagged: it ranks above both others, and does not count against their places
    Trial(
        b"\x01\0\0\0\xff\0\x02\0\0",
        &[
            (0, 0),
            (1, 0),
            (1, 0),
            (1, 0),
            (0, 0),
            (1, 0),
            (0, 0),
            (1, 0),
            (1, 0),
        ],
    ),
    Trial(
        b"\x01\0\x01\0\0\0\x01\0\0",
        &[
            (0, 0),
            (1, 0),
            (0, 0),
            (1, 0),
            (1, 0),
            (1, 0),
            (7, 55),
            (1, 0),
            (1, 0),
        ],
    ),
    // five places are free, but not for the unflagged
    Trial(
        b"\0\0\0\0\0\x01\0\0\0",
        &[
            (1, 0),
            (1, 0),
            (1, 0),
            (1, 0),
            (1, 0),
            (7, 55),
            (1, 0),
            (1, 0),
            (1, 0),
        ],
    ),
];

// Without 3 and 8, which are barred, the first two at HERON are 2 and 0.
const BARRED_FIRST: [Trial; 3] = [
    Trial(
        ALL,
        &[
            (0, 0),
            (0, 0),
            (0, 0),
            (4, 2),
            (0, 0),
            (7, 55),
            (7, 55),
            (0, 0),
            (4, 0),
        ],
    ),
    // 8 uses no place, so there is one for 6
    Trial(
        b"\x01\0\0\0\0\0\x01\0\x01",
        &[
            (0, 0),
            (1, 0),
            (1, 0),
            (1, 0),
            (1, 0),
            (1, 0),
            (0, 0),
            (1, 0),
            (4, 0),
        ],
    ),
    // 8 is barred, but not in the list
    Trial(
        b"\0\0\0\x01\0\0\0\0\0",
        &[
            (1, 0),
            (1, 0),
            (1, 0),
            (4, 2),
            (1, 0),
            (1, 0),
            (1, 0),
            (1, 0),
            (1, 0),
        ],
    ),
];

// 3 and 8 have points enough, and are out all the same.
const BARRED: [Trial; 1] = [Trial(
    ALL,
    &[
        (0, 0),
        (7, 50),
        (0, 0),
        (4, 2),
        (0, 0),
        (7, 50),
        (7, 50),
        (7, 50),
        (4, 0),
    ],
)];

#[test]
fn layers_on_a_threshold(rt: HostRuntime) -> Result<(), Fail> {
    let book = DeckBook::of(R)?;
    let deck = book.deck();
    agrees(
        &rt,
        "threshold",
        &Threshold { least: 50 },
        &deck,
        &THRESHOLD,
    );
    let reserve = Reserve::of(Threshold { least: 55 }, &deck);
    agrees(&rt, "reserve", &reserve, &deck, &RESERVED);
    agrees(
        &rt,
        "bar, reserve",
        &Bar::of(reserve, &deck),
        &deck,
        &BARRED_FIRST,
    );
    let bar = Bar::of(Threshold { least: 50 }, &deck);
    agrees(&rt, "bar", &bar, &deck, &BARRED);
    Ok(())
}

// The same layers by one call.
#[test]
fn a_pile_is_made_of_the_deck(rt: HostRuntime) -> Result<(), Fail> {
    let book = DeckBook::of(R)?;
    let deck = book.deck();
    let mut marks = [1u8; 9];
    assert_eq!(rt; said(choose_enough(55, &deck, &mut marks)), Ok(()));
    assert_eq!(rt; marks, [1, 1, 1, 0, 1, 0, 0, 1, 0]);
    Ok(())
}

// On P the bars of R take out 3 (trainee 1 at TERN), and 2 is flagged and takes a place at HERON.
const OF_R: [Trial; 1] = [Trial(
    b"\x01\x01\x01\x01\x01\x01",
    &[(7, 65), (0, 0), (0, 0), (4, 2), (7, 65), (7, 65)],
)];

// P has neither bars nor reserves.
const OF_P: [Trial; 1] = [Trial(
    ALL,
    &[
        (7, 55),
        (7, 55),
        (7, 55),
        (0, 0),
        (0, 0),
        (7, 55),
        (7, 55),
        (7, 55),
        (0, 0),
    ],
)];

#[test]
fn layers_keep_what_they_were_made_of(rt: HostRuntime) -> Result<(), Fail> {
    let p_book = DeckBook::of(P)?;
    let p = p_book.deck();
    let r_book = DeckBook::of(R)?;
    let r = r_book.deck();
    let of_r = Bar::of(Reserve::of(Threshold { least: 65 }, &r), &r);
    agrees(&rt, "of R", &of_r, &p, &OF_R);
    let of_p = Bar::of(Reserve::of(Threshold { least: 55 }, &p), &p);
    agrees(&rt, "of P", &of_p, &r, &OF_P);
    Ok(())
}
