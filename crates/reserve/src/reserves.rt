// How many places each dredger has reserved.
ghost use Rattle.std.specs.Prelude.{◌≡◌, ℕ, ◌+◌, ◌<◌, ◌≤◌, length, if◌then◌else◌, nat_eq, slice_index};
ghost use Rattle.deck.specs.Facts.{ReservesApart};
ghost use Rattle.reserve.specs.Reserves.{seats_for};
ghost use Rattle.rules.specs.Contents.{reserve_at};

use board::marked::Marked;
use board::unfit::Unfit;
use deck::deck::Deck;
use ranking::row::row_by;
use rules::table::{Contract, Reservation, Rule};

// A place for each dredger that a deck may have. Entries hold plain numbers, and that a dredger's is below 64 is known of a deck's alone.
// Laws take a board as a value, of which only its fields' lists are known: that the places are 64 is therefore an invariant.
#[derive(Drop)]
pub struct Reserves {
    places: [u16; 64],
    ghost whole: { length places ≡ 64 },
}

// The places of each dredger, 0 where none are given.
fn places_of(reserves: &[Reservation]) -> [u16; 64]
    requires apart { ReservesApart reserves.now }
    requires known { (k : ℕ) → k < length reserves.now → (reserve_at reserves.now k).dredger < 64 }
    ensures { (v : ℕ) → slice_index result v ≡ seats_for reserves.now v }
{
    let mut places = [0; 64];
    for entry in reserves {
        places[usize::from(entry.dredger)] = entry.seats;
    }
    places
}

// Counts one more at a dredger, and tells how many were there before.
fn count_one(seen: &mut [u16; 64], dredger: u8) -> u16
    requires known { dredger < 64 }
    requires few { slice_index seen.old dredger ≤ 2048 }
    ensures before { result ≡ slice_index seen.old dredger }
    ensures after { (v : ℕ) → slice_index seen.new v ≡ slice_index seen.old v + (if nat_eq dredger v then 1 else 0) }
{
    let before = seen[usize::from(dredger)];
    seen[usize::from(dredger)] = before + 1;
    before
}

impl Reserves {
    ghost use Rattle.board.specs.Marked.{contracts_of, deck_of, list_of};
    ghost use Rattle.deck.specs.Contents.{data_of};
    ghost use Rattle.matching.specs.Choices.{first};
    ghost use Rattle.ranking.specs.Rank.{above};
    ghost use Rattle.ranking.specs.Rows.{InRow};
    ghost use Rattle.reserve.specs.Reserve.{Parted, places_in};
    ghost use Rattle.reserve.specs.Reserves.{entitled, has_room, left, reserve};
    ghost use Rattle.rules.specs.Contents.{contract_at};
    ghost use Rattle.std.specs.Prelude.{true};

    pub fn of(deck: &Deck) -> Reserves
        ensures { (v : ℕ) → slice_index (places_in result) v ≡ seats_for (data_of deck.now).reserves v }
    {
        Reserves {
            places: places_of(deck.reserves()),
        }
    }

    // The places at a dredger.
    fn at(&self, dredger: u8) -> u16
        ensures { result ≡ slice_index (places_in self.now) dredger }
    {
        self.places.get(usize::from(dredger)).copied().unwrap_or(0)
    }

    // Is the contract flagged, at a dredger with reserved places?
    fn entitles(&self, c: &Contract) -> bool
        ensures { result ≡ entitled (places_in self.now) c.now }
    {
        c.flag && 0 < self.at(c.dredger)
    }

    // Takes contract k out, unless a place is left for it after those that were seen.
    fn settle(&self, k: u16, seen: &mut [u16; 64], taken: &mut Marked)
        requires known { k < length (contracts_of taken.old) }
        requires dredger { (contract_at (contracts_of taken.old) k).dredger < 64 }
        requires few { slice_index seen.old (contract_at (contracts_of taken.old) k).dredger ≤ 2048 }
        ensures deck { deck_of taken.new ≡ deck_of taken.old }
        ensures seen { (v : ℕ) → slice_index seen.new v
            ≡ slice_index seen.old v + (if nat_eq (contract_at (contracts_of taken.old) k).dredger v then 1 else 0) }
        ensures taken { list_of taken.new
            ≡ left (has_room (places_in self.now) seen.old (contracts_of taken.old) k) (list_of taken.old) k }
    {
        let dredger = taken.contracts()[usize::from(k)].dredger;
        if count_one(seen, dredger) >= self.at(dredger) {
            taken.take(k);
        }
    }

    // Takes out the contracts that have as many above them as there are places, or more.
    fn cut(&self, row: &[u16], taken: &mut Marked)
        requires row { InRow Rule.Rank (contracts_of taken.old) (list_of taken.old) row.now }
        requires dredgers { (k : ℕ) → list_of taken.old k ≡ true → (contract_at (contracts_of taken.old) k).dredger < 64 }
        ensures { list_of taken.new ≡ first (length (contracts_of taken.old)) (λ j. true) (above (contracts_of taken.old))
            (reserve (places_in self.now) (contracts_of taken.old)) (list_of taken.old) }
    {
        let mut seen = [0; 64];
        for k in row {
            self.settle(*k, &mut seen, taken);
        }
    }

    // The reserve part of a list.
    pub(crate) fn part<'a>(&self, deck: &'a Deck<'a>, marks: &[u8]) -> Result<Marked<'a>, Unfit>
        ensures { Parted (places_in self.now) (data_of deck.now).contracts marks.now result }
    {
        let contracts = deck.contracts();
        let mut taken = Marked::of(deck, marks)?;
        taken.keep(|k| self.entitles(&contracts[k]));
        let row = row_by(&taken, Rule::Rank);
        self.cut(&row, &mut taken);
        Ok(taken)
    }
}
