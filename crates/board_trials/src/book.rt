// A deck with the tables that it fills.
use deck::deck::Deck;
use intake::book::Book;
use intake::counts::Counts;
use std::test::Fail;

#[derive(Drop)]
pub struct DeckBook {
    bytes: &'static [u8],
    counts: Counts,
    book: Book,
}

impl DeckBook {
    pub fn of(bytes: &'static [u8]) -> Result<DeckBook, Fail> {
        let mut book = Book::default();
        let Ok(counts) = book.take_in(bytes) else {
            return Err(Fail::new("the deck is refused"));
        };
        Ok(DeckBook {
            bytes,
            counts,
            book,
        })
    }

    // The deck of these tables. One that is not bound is the empty deck, which no marks fit.
    pub fn deck(&self) -> Deck<'_> {
        let mut place = Deck::empty();
        let _ = place.bind(self.bytes, self.book.tables(), self.counts);
        place
    }
}
