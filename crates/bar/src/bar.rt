// A layer that never shows some contracts to the board below.
ghost use Rattle.std.specs.Prelude.{◌≡◌, length};
ghost use Rattle.deck.specs.Contents.{data_of};
ghost use Rattle.std.proofs.Common.{rules};

use crate::bars::Bars;
use board::board::Board;
use board::explain::Explain;
use board::marked::Marked;
use board::marks::{fit, is_listed};
use board::unfit::Unfit;
use deck::deck::Deck;

// A type of its own beside the other layer, which holds another table.
#[derive(Drop)]
pub struct Bar<C> {
    below: C,
    bars: Bars,
}

impl<C> Bar<C> {
    ghost use Rattle.bar.specs.Bar.{bars_of};

    // The bars of a deck, on this board.
    pub fn of(below: C, deck: &Deck) -> Bar<C>
        ensures below { result.below ≡ below }
        ensures bars { bars_of result ≡ (data_of deck.now).bars }
    {
        Bar {
            below,
            bars: Bars::of(deck),
        }
    }
}

impl<C: Board> Board for Bar<C> {
    ghost use Rattle.bar.specs.Bar.{bar-lawful, barred_by};
    ghost use Rattle.matching.specs.Choices.{without};

    ghost kept = { λ s t. without (barred_by s t) (C.Board.kept s.below t) };

    ghost part = { λ b t o. (bar-lawful C.Board.part C.Board.substitutable C.Board.irrelevant b t o).part };

    ghost substitutable = { λ b t o. (bar-lawful C.Board.part C.Board.substitutable C.Board.irrelevant b t o).substitutable };

    ghost irrelevant = { λ b t o. (bar-lawful C.Board.part C.Board.substitutable C.Board.irrelevant b t o).irrelevant };

    #[tactic(auto, using(crate::proofs::Barring::chosen_struck))]
    fn choose(&self, deck: &Deck, marks: &mut [u8]) -> Result<(), Unfit> {
        fit(deck, marks)?;
        self.bars.strike(deck.contracts(), marks);
        self.below.choose(deck, marks)
    }
}

impl<C: Explain> Explain for Bar<C> {
    ghost use Rattle.bar.specs.Bar.{barred_by};
    ghost use Rattle.bar.specs.Bars.{bar_reason};

    ghost reason = { λ s t. bar_reason (barred_by s t) t.contracts (C.Explain.reason s.below t) };

    ghost further = { Prim.search rules };

    fn why(&self, deck: &Deck, marks: &[u8], k: u16) -> Result<(u8, u16), Unfit> {
        if !is_listed(deck, marks, k)? {
            return Ok((1, 0));
        }
        let contracts = deck.contracts();
        let contract = &contracts[usize::from(k)];
        if self.bars.bars(contract) {
            return Ok((4, u16::from(contract.dredger)));
        }
        let mut rest = Marked::of(deck, marks)?;
        rest.keep(|j| !self.bars.bars(&contracts[j]));
        self.below.why(deck, rest.marks(), k)
    }
}
