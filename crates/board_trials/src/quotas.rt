// The quota board.
use crate::book::DeckBook;
use crate::case::{Trial, agrees};
use crate::decks::{DEEP, NARROW, P};
use quota::quota::Quota;
use std::test::Fail;

const ON_P: [Trial; 3] = [
    // 0 fails at ENGINE, which 2 fills; 5 has one of HERON's two berths
    Trial(
        b"\x01\0\x01\0\0\x01",
        &[(2, 1), (1, 0), (0, 0), (1, 0), (1, 0), (0, 0)],
    ),
    // TERN has one berth, for 1
    Trial(
        b"\x01\x01\x01\x01\x01\x01",
        &[(2, 1), (0, 0), (0, 0), (2, 2), (2, 2), (0, 0)],
    ),
    Trial(
        b"\xff\0\0\0\0\x02",
        &[(0, 0), (1, 0), (1, 0), (1, 0), (1, 0), (0, 0)],
    ),
];

const ON_NARROW: [Trial; 2] = [
    // 1 is not kept, and counts in ENGINE against 2 all the same
    Trial(b"\x01\x01\x01", &[(0, 0), (2, 0), (2, 1)]),
    Trial(b"\0\x01\x01", &[(1, 0), (0, 0), (2, 0)]),
];

#[test]
fn quotas_count_upwards(rt: HostRuntime) -> Result<(), Fail> {
    let p_book = DeckBook::of(P)?;
    let p = p_book.deck();
    agrees(&rt, "P", &Quota::of(&p), &p, &ON_P);
    let narrow_book = DeckBook::of(NARROW)?;
    let narrow = narrow_book.deck();
    agrees(&rt, "narrow", &Quota::of(&narrow), &narrow, &ON_NARROW);
    Ok(())
}

const ON_DEEP: [Trial; 3] = [
    // 6, 3 and 5 fill HERON. 0 fails at ENGINE, which 3 fills; 8 at DECK, which 3 and 5 fill; 7 at HERON; 1 at a cap of 0.
    Trial(
        b"\x01\x01\x01\x01\x01\x01\x01\x01\x01\x01",
        &[
            (2, 2),
            (2, 4),
            (0, 0),
            (0, 0),
            (0, 0),
            (0, 0),
            (0, 0),
            (2, 0),
            (2, 1),
            (0, 0),
        ],
    ),
    // one in each of ENGINE, HERON itself and DECK
    Trial(
        b"\x01\0\0\0\0\0\0\x01\x01\0",
        &[
            (0, 0),
            (1, 0),
            (1, 0),
            (1, 0),
            (1, 0),
            (1, 0),
            (1, 0),
            (0, 0),
            (0, 0),
            (1, 0),
        ],
    ),
    // HERON has a berth left, DECK has none
    Trial(
        b"\0\0\0\x01\0\x01\0\0\x01\0",
        &[
            (1, 0),
            (1, 0),
            (1, 0),
            (0, 0),
            (1, 0),
            (0, 0),
            (1, 0),
            (1, 0),
            (2, 1),
            (1, 0),
        ],
    ),
];

#[test]
fn three_levels_and_equal_points(rt: HostRuntime) -> Result<(), Fail> {
    let book = DeckBook::of(DEEP)?;
    let deck = book.deck();
    agrees(&rt, "three levels", &Quota::of(&deck), &deck, &ON_DEEP);
    Ok(())
}

// By the rows of DEEP, P's group 2 lies in its group 1; but contracts of TERN and of HERON do not count against each other.
const BY_DEEP: [Trial; 1] = [Trial(
    b"\x01\x01\x01\x01\x01\x01",
    &[(0, 0), (0, 0), (0, 0), (2, 2), (2, 2), (0, 0)],
)];

// NARROW has no group 2, so its cap is 0; HERON has one berth, for 2.
const BY_NARROW: [Trial; 1] = [Trial(
    b"\x01\x01\x01\x01\x01\x01",
    &[(2, 0), (2, 2), (0, 0), (2, 2), (2, 2), (2, 0)],
)];

#[test]
fn quotas_of_another_deck(rt: HostRuntime) -> Result<(), Fail> {
    let p_book = DeckBook::of(P)?;
    let p = p_book.deck();
    let deep = DeckBook::of(DEEP)?;
    agrees(&rt, "deep", &Quota::of(&deep.deck()), &p, &BY_DEEP);
    let narrow = DeckBook::of(NARROW)?;
    agrees(&rt, "narrow", &Quota::of(&narrow.deck()), &p, &BY_NARROW);
    Ok(())
}
