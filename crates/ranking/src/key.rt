// The keys that a row is sorted by.
ghost use Rattle.ranking.specs.Keys.{key_of};
ghost use Rattle.std.specs.Prelude.{◌≡◌};

use rules::table::{Contract, Rule};
use std::cmp::Reverse;

// The fields in the order in which they count, more points first.
#[derive(Clone, Copy, PartialEq, Eq, PartialOrd, Ord, Default)]
pub(crate) struct Key {
    dredger: u8,
    term: u8,
    points: Reverse<u16>,
    lot: u16,
    pub(crate) number: u16,
}

// What the rule does not read is zero, so that one order serves all rules.
pub(crate) fn key_of(rule: Rule, contract: &Contract, number: u16) -> Key
    ensures { result ≡ key_of rule contract.now number }
{
    let (term, points) = match rule {
        Rule::Rank => (0, contract.points),
        Rule::Lot => (0, 0),
        Rule::Term => (contract.term, contract.points),
    };
    Key {
        dredger: contract.dredger,
        term,
        points: Reverse(points),
        lot: contract.lot,
        number,
    }
}
