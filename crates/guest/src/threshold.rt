// A board that keeps every contract with points enough.
ghost use Rattle.guest.specs.Keeping.{lawful};
ghost use Rattle.guest.specs.Thresholds.{keeps};
ghost use Rattle.std.proofs.Common.{rules};
ghost use Rattle.std.specs.Prelude.{◌≡◌, nat_le};

use board::board::Board;
use board::explain::Explain;
use board::marks::{fit, is_listed, keep_only};
use board::unfit::Unfit;
use deck::deck::Deck;
use rules::table::Contract;

#[derive(Clone, Copy, Debug)]
pub struct Threshold {
    pub least: u16,
}

impl Threshold {
    // Has the contract points enough?
    fn takes(&self, contract: &Contract) -> bool
        ensures { result ≡ nat_le self.now.least contract.now.points }
    {
        contract.points >= self.least
    }
}

impl Board for Threshold {
    ghost kept = { λ s t. keeps s.least t.contracts };

    ghost part = { λ b t o. (lawful b.least t.contracts).part };

    ghost substitutable = { λ b t o. (lawful b.least t.contracts).substitutable };

    ghost irrelevant = { λ b t o. (lawful b.least t.contracts).irrelevant };

    fn choose(&self, deck: &Deck, marks: &mut [u8]) -> Result<(), Unfit> {
        fit(deck, marks)?;
        let contracts = deck.contracts();
        keep_only(marks, |k| self.takes(&contracts[k]));
        Ok(())
    }
}

impl Explain for Threshold {
    ghost reason = { λ s _ _ _. (7, s.least) };

    ghost further = { Prim.search rules };

    fn why(&self, deck: &Deck, marks: &[u8], k: u16) -> Result<(u8, u16), Unfit> {
        if !is_listed(deck, marks, k)? {
            return Ok((1, 0));
        }
        if self.takes(&deck.contracts()[usize::from(k)]) {
            return Ok((0, 0));
        }
        Ok((7, self.least))
    }
}
