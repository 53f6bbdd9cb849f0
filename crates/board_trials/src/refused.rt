// Refusals, which leave the marks as they were.
use crate::book::DeckBook;
use crate::case::said;
use crate::decks::R;
use bar::bar::Bar;
use board::board::Board;
use board::explain::Explain;
use deck::deck::Deck;
use guest::laws::{choose_shortlists, choose_twice};
use guest::threshold::Threshold;
use quota::quota::Quota;
use reserve::reserve::Reserve;
use seats::seats::Seats;
use std::process::Abort;
use std::test::Fail;

// Marks one short and one long, for a deck of nine contracts.
fn check_lengths<B: Explain>(rt: &impl Abort, what: &str, board: &B, deck: &Deck) {
    let mut short = [2, 1, 0, 255, 1, 0, 7, 1];
    let mut long = [1, 2, 0, 255, 1, 0, 7, 1, 1, 3];
    assert_eq!(rt; said(board.choose(deck, &mut short)), Err(31), "{what}");
    assert_eq!(rt; said(board.choose(deck, &mut long)), Err(31), "{what}");
    assert_eq!(rt;
        said(choose_twice(board, deck, &mut long)),
        Err(31),
        "{what}"
    );
    assert_eq!(rt; said(board.why(deck, &short, 0)), Err(31), "{what}");
    // 31 is asked before 32
    assert_eq!(rt; said(board.why(deck, &long, 9)), Err(31), "{what}");
    assert_eq!(rt; short, [2, 1, 0, 255, 1, 0, 7, 1], "{what}");
    assert_eq!(rt; long, [1, 2, 0, 255, 1, 0, 7, 1, 1, 3], "{what}");
}

// The last contract is 8.
fn check_numbers<B: Explain>(rt: &impl Abort, what: &str, board: &B, deck: &Deck) {
    let marks = [0u8; 9];
    assert_eq!(rt; said(board.why(deck, &marks, 8)), Ok((1, 0)), "{what}");
    assert_eq!(rt; said(board.why(deck, &marks, 9)), Err(32), "{what}");
    assert_eq!(rt; said(board.why(deck, &marks, 65535)), Err(32), "{what}");
}

fn check_refusals<B: Explain>(rt: &impl Abort, what: &str, board: &B, deck: &Deck) {
    check_lengths(rt, what, board, deck);
    check_numbers(rt, what, board, deck);
}

#[test]
fn boards_and_layers_refuse(rt: HostRuntime) -> Result<(), Fail> {
    let book = DeckBook::of(R)?;
    let deck = book.deck();
    let board = Threshold { least: 50 };
    check_refusals(&rt, "threshold", &board, &deck);
    check_refusals(&rt, "quota", &Quota::of(&deck), &deck);
    check_refusals(&rt, "seats", &Seats::of(&deck), &deck);
    let pile = Bar::of(Reserve::of(board, &deck), &deck);
    check_refusals(&rt, "layers", &pile, &deck);
    Ok(())
}

// A deck without contracts has lists of no mark.
#[test]
fn an_empty_deck_has_no_marks(rt: HostRuntime) {
    let deck = Deck::empty();
    let board = Bar::of(Reserve::of(Threshold { least: 0 }, &deck), &deck);
    assert_eq!(rt; said(board.choose(&deck, &mut [])), Ok(()));
    assert_eq!(rt; said(board.choose(&deck, &mut [1])), Err(31));
    assert_eq!(rt; said(board.why(&deck, &[], 0)), Err(32));
}

// Either list may be too short, and then neither is changed.
#[test]
fn shortlists_ask_both_lengths(rt: HostRuntime) -> Result<(), Fail> {
    let book = DeckBook::of(R)?;
    let deck = book.deck();
    let board = Threshold { least: 50 };
    let mut whole = [2u8; 9];
    let mut short = [3u8; 8];
    assert_eq!(rt;
        said(choose_shortlists(&board, &deck, &mut whole, &mut short)),
        Err(31)
    );
    assert_eq!(rt;
        said(choose_shortlists(&board, &deck, &mut short, &mut whole)),
        Err(31)
    );
    assert_eq!(rt; whole, [2u8; 9]);
    assert_eq!(rt; short, [3u8; 8]);
    Ok(())
}
