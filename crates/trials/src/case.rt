// What the rules say of a deck, and what intake says.
use format::fault::{Layer, Refusal};
use intake::book::Book;
use intake::counts::Counts;
use std::process::Abort;

// A deck that is refused, with the number and the place of its fault.
#[derive(Clone, Copy)]
pub struct Case(pub &'static [u8], pub u8, pub usize);

impl Case {
    pub fn refusal(&self) -> Refusal {
        refusal(self.1, self.2)
    }
}

// The layer that each question belongs to.
fn layer_of(number: u8) -> Layer {
    match number {
        3 | 4 | 6 => Layer::Bytes,
        5 | 7 | 8 | 9 => Layer::Records,
        _ => Layer::Deck,
    }
}

// Written out, so that no expected value comes from the code that is tried.
pub fn refusal(number: u8, place: usize) -> Refusal {
    Refusal {
        number,
        place,
        layer: layer_of(number),
    }
}

// Groups, seats, reserves, trainees, wishes, bars: a row of numbers is plainer in a list of cases than a struct.
pub fn counts_of(row: [usize; 6]) -> Counts {
    let [groups, seats, reserves, trainees, wishes, bars] = row;
    Counts {
        groups,
        seats,
        reserves,
        trainees,
        wishes,
        bars,
    }
}

// Intake's answer, with tables of the least size.
pub fn judged(deck: &[u8]) -> Result<Counts, Refusal> {
    Book::default().take_in(deck).map_err(Refusal::from)
}

pub fn all_refused(rt: &impl Abort, what: &str, cases: &[Case]) {
    for (i, case) in cases.iter().enumerate() {
        assert_eq!(rt; judged(case.0), Err(case.refusal()), "{what}, case {i}");
    }
}
