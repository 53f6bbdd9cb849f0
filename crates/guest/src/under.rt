// The layers of the library on a board of somebody else.
ghost use Rattle.board.specs.Calls.{Chosen};
ghost use Rattle.deck.specs.Contents.{data_of};
ghost use Rattle.guest.specs.Thresholds.{keeps};
ghost use Rattle.layers.specs.Piles.{piled};
ghost use Rattle.std.specs.Prelude.{length};

use crate::threshold::Threshold;
use board::unfit::Unfit;
use deck::deck::Deck;
use layers::pile::choose_under;

// Keeps the contracts with enough points, under the deck's own reserves and bars.
pub fn choose_enough(least: u16, deck: &Deck, marks: &mut [u8]) -> Result<(), Unfit>
    ensures { Chosen (piled (data_of deck.now) (keeps least (data_of deck.now).contracts)) (length (data_of deck.now).contracts)
        marks.old marks.new result }
{
    choose_under(Threshold { least }, deck, marks)
}
