// A fault of the deck layer, with one of the record layer whole.
ghost use Rattle.intake.specs.Refusals.{deck_fault_of, refusal as deck_refusal};
ghost use Rattle.std.specs.Prelude.{◌≡◌};

use format::fault::{Layer, Refusal};
use rules::fault::RecordFault;

#[derive(Clone, Copy, PartialEq, Eq, Debug)]
pub enum DeckFault {
    Records(RecordFault),
    SmallTable,
    TooLong,
    WrongCount { place: usize },
    Trailing { place: usize },
    OtherTables,
}

// Each layer of faults takes the one below by an impl of its own.
impl From<RecordFault> for DeckFault {
    ghost from_gives = { λ record_fault fault. fault ≡ deck_fault_of record_fault };

    fn from(fault: RecordFault) -> DeckFault {
        DeckFault::Records(fault)
    }
}

impl From<DeckFault> for Refusal {
    ghost from_gives = { λ fault refusal. refusal ≡ deck_refusal fault };

    fn from(fault: DeckFault) -> Refusal {
        match fault {
            DeckFault::Records(fault) => fault.into(),
            DeckFault::SmallTable => Layer::Deck.refusal(1, 0),
            DeckFault::TooLong => Layer::Deck.refusal(2, 0),
            DeckFault::WrongCount { place } => Layer::Deck.refusal(10, place),
            DeckFault::Trailing { place } => Layer::Deck.refusal(11, place),
            DeckFault::OtherTables => Layer::Deck.refusal(12, 0),
        }
    }
}
