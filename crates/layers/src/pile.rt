// A board under the reserves of a deck, under its bars.
ghost use Rattle.std.specs.Prelude.{◌≡◌, ℕ, length};
ghost use Rattle.bar.specs.Bar.{bars_of};
ghost use Rattle.board.specs.Calls.{Chosen};
ghost use Rattle.deck.specs.Contents.{data_of};
ghost use Rattle.layers.specs.Piles.{piled};
ghost use Rattle.reserve.specs.Reserve.{reserved_at};
ghost use Rattle.reserve.specs.Reserves.{seats_for};

use bar::bar::Bar;
use board::board::Board;
use board::unfit::Unfit;
use deck::deck::Deck;
use reserve::reserve::Reserve;

// Both layers of a deck, on this board. The bars are outermost, so that a barred contract takes no reserved place.
pub fn pile<C>(below: C, deck: &Deck) -> Bar<Reserve<C>>
    ensures below { result.below.below ≡ below }
    ensures reserves { (v : ℕ) → reserved_at result.below v ≡ seats_for (data_of deck.now).reserves v }
    ensures bars { bars_of result ≡ (data_of deck.now).bars }
{
    Bar::of(Reserve::of(below, deck), deck)
}

// Turns the marks of a list into those of what the board keeps of it under the deck's own reserves and bars.
pub fn choose_under<C: Board + Drop>(below: C, deck: &Deck, marks: &mut [u8]) -> Result<(), Unfit>
    ensures { Chosen (piled (data_of deck.now) (C.Board.kept below (data_of deck.now))) (length (data_of deck.now).contracts)
        marks.old marks.new result }
{
    let board = pile(below, deck);
    board.choose(deck, marks)
}
