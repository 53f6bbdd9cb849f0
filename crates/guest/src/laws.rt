// What the laws of a board give to those who use it, whatever board it is.
ghost use Rattle.board.specs.Calls.{Chosen};
ghost use Rattle.deck.specs.Contents.{data_of};
ghost use Rattle.guest.specs.Shortlists.{Again, Joined, Shortlisted};
ghost use Rattle.std.specs.Prelude.{length};

use board::board::Board;
use board::marks::{fit, put_in};
use board::unfit::Unfit;
use deck::deck::Deck;

// Chooses of a shortlist.
fn choose_again<B: Board>(b: &B, deck: &Deck, marks: &mut [u8]) -> Result<(), Unfit>
    ensures { Again (B.Board.kept b.now (data_of deck.now)) (length (data_of deck.now).contracts)
        marks.old marks.new result }
{
    b.choose(deck, marks)
}

// Chooses of two shortlists joined.
fn choose_joined<B: Board>(b: &B, deck: &Deck, first: &mut [u8], second: &[u8]) -> Result<(), Unfit>
    ensures { Joined (B.Board.kept b.now (data_of deck.now)) (length (data_of deck.now).contracts)
        first.old second.now first.new result }
{
    put_in(first, second);
    b.choose(deck, first)
}

// Chooses, and chooses again of what was kept, which changes nothing more.
pub fn choose_twice<B: Board>(b: &B, deck: &Deck, marks: &mut [u8]) -> Result<(), Unfit>
    ensures { Chosen (B.Board.kept b.now (data_of deck.now)) (length (data_of deck.now).contracts)
        marks.old marks.new result }
{
    b.choose(deck, marks)?;
    choose_again(b, deck, marks)
}

// Chooses of each list, and then of the two shortlists joined. That is what is kept of the two lists joined.
pub fn choose_shortlists<B: Board>(
    b: &B,
    deck: &Deck,
    first: &mut [u8],
    second: &mut [u8],
) -> Result<(), Unfit>
    ensures { Shortlisted (B.Board.kept b.now (data_of deck.now)) (length (data_of deck.now).contracts)
        first.old second.old first.new second.new result }
{
    fit(deck, first)?;
    fit(deck, second)?;
    b.choose(deck, first)?;
    b.choose(deck, second)?;
    choose_joined(b, deck, first, second)
}
