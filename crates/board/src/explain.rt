// A board that can give reasons.
ghost use Rattle.std.specs.Prelude.{◌≡◌, ℕ, ◌<◌, true, false, length};
ghost use Rattle.board.specs.Calls.{Explained};
ghost use Rattle.board.specs.Decks.{OfDeck};
ghost use Rattle.deck.specs.Contents.{data_of};
ghost use Rattle.matching.specs.Sets.{Set, Within};
ghost use Rattle.rules.specs.Contents.{Content};

use crate::board::Board;
use crate::unfit::Unfit;
use deck::deck::Deck;

// `reason` is the pair for a contract of a list that is not kept. Its code is above 1: 0 is said just of what is kept, and 1 just of what is not in the list.
pub trait Explain: Board {
    ghost reason: { Self → Content → Set → ℕ → ℕ × ℕ };

    // The code and the number for contract k of a list, a pair as the rules have it.
    fn why(&self, deck: &Deck, marks: &[u8], k: u16) -> Result<(u8, u16), Unfit>
        ensures { Explained (Self.Board.kept self.now (data_of deck.now)) (reason self.now (data_of deck.now))
            (length (data_of deck.now).contracts) marks.now k result };

    ghost further: { (b : Self) (t : Content) → OfDeck t → (X : Set) → Within (length t.contracts) X →
        (k : ℕ) → X k ≡ true → Self.Board.kept b t X k ≡ false → 1 < (reason b t X k).0 };
}
