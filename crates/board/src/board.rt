// A board: a choice function for all dredgers together.
ghost use Rattle.board.specs.Calls.{Chosen};
ghost use Rattle.board.specs.Decks.{OfDeck};
ghost use Rattle.deck.specs.Contents.{data_of};
ghost use Rattle.matching.specs.Choices.{Irrelevant, KeepsPart, Substitutable};
ghost use Rattle.matching.specs.Sets.{Set};
ghost use Rattle.rules.specs.Contents.{Content};
ghost use Rattle.std.specs.Prelude.{length};

use crate::unfit::Unfit;
use deck::deck::Deck;

// `kept` is what the board keeps of a list, by the tables of the list's deck. The laws are owed for the tables of every deck, and for the lists of that deck.
// They are three, by the names that the rules have for them; `Lawful` is the record of all.
pub trait Board {
    ghost kept: { Self → Content → Set → Set };

    // Turns the marks of a list into those of what is kept of it. Deck and marks come apart, as callers have them; a board that works on a list makes a `Marked` of both.
    fn choose(&self, deck: &Deck, marks: &mut [u8]) -> Result<(), Unfit>
        ensures { Chosen (kept self.now (data_of deck.now)) (length (data_of deck.now).contracts)
            marks.old marks.new result };

    ghost part: { (b : Self) (t : Content) → OfDeck t → KeepsPart (length t.contracts) (kept b t) };

    ghost substitutable: { (b : Self) (t : Content) → OfDeck t → Substitutable (length t.contracts) (kept b t) };

    ghost irrelevant: { (b : Self) (t : Content) → OfDeck t → Irrelevant (length t.contracts) (kept b t) };
}
