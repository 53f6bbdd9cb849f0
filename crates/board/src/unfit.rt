// Why a call on marks was refused.
ghost use Rattle.board.specs.Refusals.{number};
ghost use Rattle.std.specs.Prelude.{◌≡◌};

#[derive(Clone, Copy, PartialEq, Eq, Debug)]
pub enum Unfit {
    // the marks are not as long as the deck has contracts
    Marks,
    // the contract is not in the deck
    Contract,
}

// The number of the refusal.
impl From<Unfit> for u8 {
    ghost from_gives = { λ x y. y ≡ number x };

    fn from(unfit: Unfit) -> u8 {
        match unfit {
            Unfit::Marks => 31,
            Unfit::Contract => 32,
        }
    }
}
