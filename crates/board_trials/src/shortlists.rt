// What the laws give on any board.
use crate::book::DeckBook;
use crate::case::said;
use crate::decks::R;
use guest::laws::{choose_shortlists, choose_twice};
use guest::threshold::Threshold;
use reserve::reserve::Reserve;
use std::test::Fail;

// The shortlists are {0, 2} and {1, 4, 8}. Of both joined 0 falls out: 8 and 2 have the two places, and 0 has fewer than 55 points.
#[test]
fn shortlists_are_joined(rt: HostRuntime) -> Result<(), Fail> {
    let book = DeckBook::of(R)?;
    let deck = book.deck();
    let board = Reserve::of(Threshold { least: 55 }, &deck);
    let mut first = [1, 0, 2, 0, 0, 0, 255, 0, 0];
    let mut second = [0, 1, 0, 0, 1, 0, 0, 0, 3];
    let answer = choose_shortlists(&board, &deck, &mut first, &mut second);
    assert_eq!(rt; said(answer), Ok(()));
    assert_eq!(rt; first, [0, 1, 1, 0, 1, 0, 0, 0, 1]);
    assert_eq!(rt; second, [0, 1, 0, 0, 1, 0, 0, 0, 1]);
    Ok(())
}

// Of all, {1, 2, 3, 4, 7, 8} are kept, and all of them again.
#[test]
fn choosing_twice_is_choosing_once(rt: HostRuntime) -> Result<(), Fail> {
    let book = DeckBook::of(R)?;
    let deck = book.deck();
    let board = Reserve::of(Threshold { least: 55 }, &deck);
    let mut marks = [9u8; 9];
    assert_eq!(rt; said(choose_twice(&board, &deck, &mut marks)), Ok(()));
    assert_eq!(rt; marks, [0, 1, 1, 1, 1, 0, 0, 1, 1]);
    Ok(())
}
