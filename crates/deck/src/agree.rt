// Whether tables are those that intake leaves.
ghost use Rattle.deck.specs.Alike.{Fits, Matches};
ghost use Rattle.rules.specs.Contents.{content_of};
ghost use Rattle.std.specs.Prelude.{Decides};

use crate::same::extends;
use intake::book::Book;
use intake::counts::Counts;
use rules::table::Tables;

fn matches(own: Tables, had: Counts, given: Tables, counts: Counts) -> bool
    ensures { Decides result (Matches (content_of own.entry) had (content_of given.entry) counts) }
{
    had == counts
        && extends(own.groups, given.groups)
        && extends(own.seats, given.seats)
        && extends(own.reserves, given.reserves)
        && extends(own.trainees, given.trainees)
        && extends(own.contracts, given.contracts)
        && extends(own.bars, given.bars)
}

// Takes the deck in once more, into tables of its own, and compares.
pub fn agrees(bytes: &[u8], given: Tables, counts: Counts) -> bool
    ensures { Decides result (Fits bytes.now counts (content_of given.entry)) }
{
    let mut book = Book::default();
    let Ok(had) = book.take_in(bytes) else {
        return false;
    };
    matches(book.tables(), had, given, counts)
}
