// A book's own tables.
use crate::case::refusal;
use crate::samples::{E_ALONE, NO_ENTRIES, P, Q};
use crate::tables::{LEAST, hold};
use format::fault::Refusal;
use intake::book::Book;
use intake::counts::Counts;

// How many entries a book has place for.
fn sizes(book: &Book) -> Counts {
    let tables = book.tables();
    Counts {
        groups: tables.groups.len(),
        seats: tables.seats.len(),
        reserves: tables.reserves.len(),
        trainees: tables.trainees.len(),
        wishes: tables.contracts.len(),
        bars: tables.bars.len(),
    }
}

// A book takes one deck after another, and is blank after a refused one.
#[test]
fn a_book_takes_decks(rt: HostRuntime) {
    let mut book = Book::default();
    assert_eq!(rt; sizes(&book), LEAST);
    assert!(rt; hold(book.tables(), NO_ENTRIES), "at first");
    for (i, sample) in [P, Q, P, E_ALONE, Q].iter().enumerate() {
        assert_eq!(rt; book.take_in(sample.bytes), Ok(sample.counts), "deck {i}");
        assert!(rt; hold(book.tables(), sample.tables), "deck {i}");
    }
    let answer = book.take_in(b"G\xff\x01\0HERON   X").map_err(Refusal::from);
    assert_eq!(rt; answer, Err(refusal(4, 12)));
    assert!(rt; hold(book.tables(), NO_ENTRIES), "refused");
}
