// Layers on the library's own boards.
use crate::book::DeckBook;
use crate::case::{Trial, agrees};
use crate::decks::{P_BARRED, P_RESERVED, PILED};
use bar::bar::Bar;
use quota::quota::Quota;
use reserve::reserve::Reserve;
use seats::seats::Seats;
use std::test::Fail;

// 2 has the reserved place and uses none of ENGINE's, so the board keeps 0 and 5.
const ON_RESERVED: [Trial; 2] = [
    Trial(
        b"\x01\0\x01\0\0\x01",
        &[(0, 0), (1, 0), (0, 0), (1, 0), (1, 0), (0, 0)],
    ),
    // TERN has no reserve: 3 is flagged and has too few points
    Trial(
        b"\x01\x01\x01\x01\x01\x01",
        &[(0, 0), (0, 0), (0, 0), (2, 2), (2, 2), (0, 0)],
    ),
];

// BEN's 2 is barred at HERON, his 3 has fewer points than 4.
const ON_BARRED: [Trial; 1] = [Trial(
    b"\x01\0\x01\x01\x01\0",
    &[(0, 0), (1, 0), (4, 0), (2, 2), (0, 0), (1, 0)],
)];

#[test]
fn layers_on_quotas(rt: HostRuntime) -> Result<(), Fail> {
    let reserved_book = DeckBook::of(P_RESERVED)?;
    let reserved = reserved_book.deck();
    let reserve = Reserve::of(Quota::of(&reserved), &reserved);
    agrees(&rt, "reserve", &reserve, &reserved, &ON_RESERVED);
    let barred_book = DeckBook::of(P_BARRED)?;
    let barred = barred_book.deck();
    let pile = Bar::of(Reserve::of(Quota::of(&barred), &barred), &barred);
    agrees(&rt, "bar", &pile, &barred, &ON_BARRED);
    Ok(())
}

// 0 is barred; 2 and 3 have the reserved places, and of what is left 4 has HERON's berth.
const QUOTA_PILE: [Trial; 2] = [
    Trial(
        b"\x01\x01\x01\x01\x01\x01\x01",
        &[(4, 0), (2, 1), (0, 0), (0, 0), (0, 0), (2, 1), (2, 0)],
    ),
    // 6 and 1 have the reserved places, since 0 uses none
    Trial(
        b"\x01\x01\0\0\0\0\x01",
        &[(4, 0), (0, 0), (1, 0), (1, 0), (1, 0), (1, 0), (0, 0)],
    ),
];

// The same with HERON's seat; TERN has none, but its reserved place.
const SEATS_PILE: [Trial; 2] = [
    Trial(
        b"\x01\x01\x01\x01\x01\x01\x01",
        &[(4, 0), (3, 1), (0, 0), (0, 0), (0, 0), (3, 1), (3, 0)],
    ),
    Trial(
        b"\x01\x01\0\0\0\0\x01",
        &[(4, 0), (0, 0), (1, 0), (1, 0), (1, 0), (1, 0), (0, 0)],
    ),
];

#[test]
fn whole_piles(rt: HostRuntime) -> Result<(), Fail> {
    let book = DeckBook::of(PILED)?;
    let deck = book.deck();
    let quotas = Bar::of(Reserve::of(Quota::of(&deck), &deck), &deck);
    agrees(&rt, "quota", &quotas, &deck, &QUOTA_PILE);
    let seats = Bar::of(Reserve::of(Seats::of(&deck), &deck), &deck);
    agrees(&rt, "seats", &seats, &deck, &SEATS_PILE);
    Ok(())
}
