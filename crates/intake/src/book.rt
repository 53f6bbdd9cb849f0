// A book: six tables of just the most entries, for a caller that lends none.
ghost use Rattle.intake.specs.Book.{Answers, Verdict};
ghost use Rattle.intake.specs.Fillings.{Full, blank_book, tables};
ghost use Rattle.rules.specs.Contents.{content_of};
ghost use Rattle.std.specs.Prelude.{◌≡◌};

use crate::counts::Counts;
use crate::fault::DeckFault;
use crate::intake::intake;
use crate::tables::TablesMut;
use rules::table::{
    Barring, Contract, Group, MOST_BARS, MOST_CONTRACTS, MOST_GROUPS, MOST_RESERVES, MOST_SEATS,
    MOST_TRAINEES, Reservation, Seat, Tables, Trainee,
};

#[derive(Drop)]
pub struct Book {
    groups: [Group; MOST_GROUPS],
    seats: [Seat; MOST_SEATS],
    reserves: [Reservation; MOST_RESERVES],
    trainees: [Trainee; MOST_TRAINEES],
    contracts: [Contract; MOST_CONTRACTS],
    bars: [Barring; MOST_BARS],
    ghost full: { Full (tables groups seats reserves trainees contracts bars) },
}

// Written out: Rust gives Default to arrays of up to 32 entries only.
impl Default for Book {
    ghost use Rattle.intake.specs.Owned.{content_of_book};

    ghost is_default = { λ book. content_of_book book ≡ blank_book };

    fn default() -> Book {
        Book {
            groups: [Group::default(); MOST_GROUPS],
            seats: [Seat::default(); MOST_SEATS],
            reserves: [Reservation::default(); MOST_RESERVES],
            trainees: [Trainee::default(); MOST_TRAINEES],
            contracts: [Contract::default(); MOST_CONTRACTS],
            bars: [Barring::default(); MOST_BARS],
        }
    }
}

impl Book {
    ghost use Rattle.intake.specs.Owned.{content_of_book};

    // Takes a deck in; the tables are never too small.
    pub fn take_in(&mut self, bytes: &[u8]) -> Result<Counts, DeckFault>
        ensures answers { Answers bytes.now (content_of_book self.old) (content_of_book self.new) result }
        ensures verdict { Verdict bytes.now result }
    {
        intake(
            bytes,
            &mut TablesMut {
                groups: &mut self.groups,
                seats: &mut self.seats,
                reserves: &mut self.reserves,
                trainees: &mut self.trainees,
                contracts: &mut self.contracts,
                bars: &mut self.bars,
            },
        )
    }

    // The tables, for reading.
    pub fn tables(&self) -> Tables<'_>
        ensures { content_of result ≡ content_of_book self.now }
    {
        Tables {
            groups: &self.groups,
            seats: &self.seats,
            reserves: &self.reserves,
            trainees: &self.trainees,
            contracts: &self.contracts,
            bars: &self.bars,
        }
    }
}
