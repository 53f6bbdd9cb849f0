// The contracts of a list, lined up by a rule.
ghost use Rattle.std.specs.Prelude.{◌≡◌, length, true};
ghost use Rattle.rules.specs.Contents.{rule_by};
ghost use Rattle.seats.specs.Rows.{Points, Rises};

use arrayvec::ArrayVec;
use board::marked::Marked;
use ranking::row::row_by;
use rules::table::{Contract, Rule, Seat};

// The numbers stand one dredger after the other, and within each by the rule. `next` has the place of each dredger's first contract that may be left.
#[derive(Drop)]
pub(crate) struct Lineup {
    numbers: ArrayVec<u16, 2048>,
    next: [Option<u16>; 256],
}

// Where each dredger begins in a row, if it has a contract there.
#[tactic(auto, using(crate::proofs::Rows::points_more))]
fn starts(contracts: &[Contract], numbers: &[u16]) -> [Option<u16>; 256]
    requires { Rises contracts.now numbers.now }
    ensures { Points contracts.now (λ k. true) numbers.now (length numbers.now) result }
{
    let mut next = [None; 256];
    for (i, &k) in numbers.iter().enumerate() {
        let contract = &contracts[usize::from(k)];
        let place = usize::from(contract.dredger);
        next[place] = next[place].or(Some(i as u16));
    }
    next
}

impl Lineup {
    ghost use Rattle.board.specs.Marked.{contracts_of};
    ghost use Rattle.seats.specs.Ready.{Begins, MayBegin, Ready, Takes};

    // Lines up what is left.
    pub(crate) fn of(rest: &Marked, rule: Rule) -> Lineup
        ensures { Ready rule rest.now result }
    {
        let numbers = row_by(rest, rule);
        let next = starts(rest.contracts(), &numbers);
        Lineup { numbers, next }
    }

    // The first place from here on with a contract left at the dredger.
    #[tactic(auto, using(crate::proofs::Rows::searching))]
    fn find(&self, rest: &Marked, dredger: u8, from: u16) -> Option<u16>
        requires rises { Rises (contracts_of rest.now) self.now.numbers.items }
        requires may_begin { MayBegin rest.now self.now dredger (Some from) }
        ensures { Begins rest.now self.now dredger result }
    {
        let contracts = rest.contracts();
        for (i, &k) in self.numbers[usize::from(from)..].iter().enumerate() {
            if contracts[usize::from(k)].dredger != dredger {
                return None;
            }
            if rest.has(k) {
                return Some(from + i as u16);
            }
        }
        None
    }

    // The best contract left at the seat's dredger.
    pub(crate) fn best(&mut self, rest: &Marked, seat: &Seat) -> Option<u16>
        requires { Ready (rule_by seat.now) rest.now self.old }
        ensures best { Takes seat.now rest.now result }
        ensures ready { Ready (rule_by seat.now) rest.now self.new }
    {
        let place = usize::from(seat.dredger);
        let from = self.next[place]?;
        let first = self.find(rest, seat.dredger, from);
        self.next[place] = first;
        first.map(|p| self.numbers[usize::from(p)])
    }
}
