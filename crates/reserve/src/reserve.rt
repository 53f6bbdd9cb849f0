// A layer that fills reserved places before the board below chooses.
ghost use Rattle.std.specs.Prelude.{◌≡◌, ℕ};
ghost use Rattle.deck.specs.Contents.{data_of};
ghost use Rattle.std.proofs.Common.{rules};

use crate::reserves::Reserves;
use board::board::Board;
use board::explain::Explain;
use board::marked::Marked;
use board::marks::{is_in, is_listed, put_in, take_out};
use board::unfit::Unfit;
use deck::deck::Deck;

// A type of its own beside the other layer, which holds another table.
#[derive(Drop)]
pub struct Reserve<C> {
    below: C,
    reserves: Reserves,
}

impl<C> Reserve<C> {
    ghost use Rattle.reserve.specs.Reserve.{reserved_at};
    ghost use Rattle.reserve.specs.Reserves.{seats_for};

    // The reserves of a deck, on this board.
    pub fn of(below: C, deck: &Deck) -> Reserve<C>
        ensures below { result.below ≡ below }
        ensures reserves { (v : ℕ) → reserved_at result v ≡ seats_for (data_of deck.now).reserves v }
    {
        Reserve {
            below,
            reserves: Reserves::of(deck),
        }
    }
}

impl<C: Board> Board for Reserve<C> {
    ghost use Rattle.matching.specs.Choices.{over};
    ghost use Rattle.reserve.specs.Reserve.{part_of, reserve-lawful};

    ghost kept = { λ s t. over (part_of s t) (C.Board.kept s.below t) };

    ghost part = { λ b t o. (reserve-lawful C.Board.part C.Board.substitutable C.Board.irrelevant b t o).part };

    ghost substitutable = { λ b t o. (reserve-lawful C.Board.part C.Board.substitutable C.Board.irrelevant b t o).substitutable };

    ghost irrelevant = { λ b t o. (reserve-lawful C.Board.part C.Board.substitutable C.Board.irrelevant b t o).irrelevant };

    fn choose(&self, deck: &Deck, marks: &mut [u8]) -> Result<(), Unfit> {
        let taken = self.reserves.part(deck, marks)?;
        take_out(marks, taken.marks());
        self.below.choose(deck, marks)?;
        put_in(marks, taken.marks());
        Ok(())
    }
}

impl<C: Explain> Explain for Reserve<C> {
    ghost use Rattle.reserve.specs.Reserve.{part_of};
    ghost use Rattle.reserve.specs.Reserves.{reserve_reason};

    ghost reason = { λ s t. reserve_reason (part_of s t) (C.Explain.reason s.below t) };

    ghost further = { Prim.search rules };

    fn why(&self, deck: &Deck, marks: &[u8], k: u16) -> Result<(u8, u16), Unfit> {
        if !is_listed(deck, marks, k)? {
            return Ok((1, 0));
        }
        let taken = self.reserves.part(deck, marks)?;
        if taken.has(k) {
            return Ok((0, 0));
        }
        let mut rest = Marked::of(deck, marks)?;
        rest.keep(|j| !is_in(taken.marks(), j));
        self.below.why(deck, rest.marks(), k)
    }
}
