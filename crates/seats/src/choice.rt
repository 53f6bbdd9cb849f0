// The seats as a board.
ghost use Rattle.std.specs.Prelude.{◌≡◌, not};
ghost use Rattle.board.specs.Marked.{list_of};
ghost use Rattle.rules.specs.Contents.{contract_at};
ghost use Rattle.seats.specs.Seats.{seats_of};
ghost use Rattle.seats.specs.SeatLaws.{seated-lawful};
ghost use Rattle.seats.specs.Taking.{seated};
ghost use Rattle.std.proofs.Common.{rules};

use crate::seats::Seats;
use board::board::Board;
use board::explain::Explain;
use board::marked::Marked;
use board::marks::{is_in, is_listed, keep_only};
use board::unfit::Unfit;
use deck::deck::Deck;

// Is contract k not in the rest? That is so of whatever isn't there; of a contract of the list it says that a seat took it.
fn is_gone(rest: &Marked, k: usize) -> bool
    ensures { result ≡ not (list_of rest.now k) }
{
    !is_in(rest.marks(), k)
}

impl Board for Seats {
    ghost kept = { λ s t X. seated (seats_of s) t.contracts X };

    ghost part = { λ b t d. (seated-lawful (seats_of b) t.contracts).part };

    ghost substitutable = { λ b t d. (seated-lawful (seats_of b) t.contracts).substitutable };

    ghost irrelevant = { λ b t d. (seated-lawful (seats_of b) t.contracts).irrelevant };

    fn choose(&self, deck: &Deck, marks: &mut [u8]) -> Result<(), Unfit> {
        let rest = self.left(deck, marks)?;
        keep_only(marks, |k| is_gone(&rest, k));
        Ok(())
    }
}

impl Explain for Seats {
    ghost reason = { λ s t X k. (3, (contract_at t.contracts k).dredger) };

    ghost further = { Prim.search rules };

    fn why(&self, deck: &Deck, marks: &[u8], k: u16) -> Result<(u8, u16), Unfit> {
        if !is_listed(deck, marks, k)? {
            return Ok((1, 0));
        }
        let rest = self.left(deck, marks)?;
        if is_gone(&rest, usize::from(k)) {
            return Ok((0, 0));
        }
        let contract = deck.contracts()[usize::from(k)];
        Ok((3, u16::from(contract.dredger)))
    }
}
