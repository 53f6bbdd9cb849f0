// The seats of a board, and seating.
ghost use Rattle.std.specs.Prelude.{◌≡◌, ◌≤◌, IsTrue, length};
ghost use Rattle.deck.specs.Contents.{data_of};
ghost use Rattle.seats.specs.Best.{AllFollow};

use crate::lineups::Lineups;
use arrayvec::ArrayVec;
use board::marked::Marked;
use board::unfit::Unfit;
use deck::deck::Deck;
use rules::table::Seat;

// The seats, in list order. A law takes a board as a value, of which only its fields' lists are known: that its seats are few is therefore an invariant.
#[derive(Drop)]
pub struct Seats {
    seats: ArrayVec<Seat, 256>,
    ghost few: { length seats.items ≤ 256 },
}

impl Seats {
    ghost use Rattle.board.specs.Marked.{contracts_of, deck_of, list_of};
    ghost use Rattle.matching.specs.Sets.{minus};
    ghost use Rattle.seats.specs.Seats.{Left, seats_of};
    ghost use Rattle.seats.specs.Taking.{seated};

    // The seats of the deck, which has at most 256.
    pub fn of(deck: &Deck) -> Seats
        ensures { seats_of result ≡ (data_of deck.now).seats }
    {
        Seats {
            seats: ArrayVec::try_from(deck.seats()).unwrap(),
        }
    }

    // What one seat takes, in plain words.
    #[tactic(auto, using(crate::proofs::Bests::follows))]
    pub fn follow_their_rule(&self) -> bool
        ensures told { IsTrue result }
        ensures follow { AllFollow (seats_of self.now) }
    {
        true
    }

    // In list order each seat takes its contract out of the rest.
    fn seat_all(&self, rest: &mut Marked)
        ensures deck { deck_of rest.new ≡ deck_of rest.old }
        ensures seated { minus (list_of rest.old) (list_of rest.new)
            ≡ seated (seats_of self.now) (contracts_of rest.old) (list_of rest.old) }
    {
        let mut lineups = Lineups::default();
        for seat in self.seats.iter() {
            if let Some(k) = lineups.best(rest, seat) {
                rest.take(k);
            }
        }
    }

    // What the seats leave of a list.
    pub(crate) fn left<'a>(&self, deck: &'a Deck<'a>, marks: &[u8]) -> Result<Marked<'a>, Unfit>
        ensures { Left (seats_of self.now) deck.now marks.now result }
    {
        let mut rest = Marked::of(deck, marks)?;
        self.seat_all(&mut rest);
        Ok(rest)
    }
}
