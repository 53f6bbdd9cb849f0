// The lineups of the three rules.
ghost use Rattle.rules.specs.Contents.{rule_by};
ghost use Rattle.seats.specs.Lineups.{Stands};
ghost use Rattle.seats.specs.Ready.{Takes};

use crate::lineup::Lineup;
use board::marked::Marked;
use rules::table::{Rule, Seat};

// Each is made when a seat first needs it.
#[derive(Drop, Default)]
pub(crate) struct Lineups {
    rank: Option<Lineup>,
    lot: Option<Lineup>,
    term: Option<Lineup>,
}

// The best contract left for a seat, in the lineup of its rule. `get_or_insert_with` ensures of a new lineup what its closure does; tried, also with a clause
// on the closure, the check tells nothing of the lineup at that call, and finds no proof.
fn best_of(lineup: &mut Option<Lineup>, rest: &Marked, seat: &Seat) -> Option<u16>
    requires { Stands (rule_by seat.now) rest.now lineup.old }
    ensures best { Takes seat.now rest.now result }
    ensures stands { Stands (rule_by seat.now) rest.now lineup.new }
{
    match lineup {
        Some(made) => made.best(rest, seat),
        None => {
            let rule = seat.rule.unwrap_or_default();
            lineup.insert(Lineup::of(rest, rule)).best(rest, seat)
        }
    }
}

impl Lineups {
    ghost use Rattle.seats.specs.Lineups.{Prepared};

    // The best contract left for a seat.
    pub(crate) fn best(&mut self, rest: &Marked, seat: &Seat) -> Option<u16>
        requires { Prepared rest.now self.old }
        ensures best { Takes seat.now rest.now result }
        ensures prepared { Prepared rest.now self.new }
    {
        match seat.rule.unwrap_or_default() {
            Rule::Rank => best_of(&mut self.rank, rest, seat),
            Rule::Lot => best_of(&mut self.lot, rest, seat),
            Rule::Term => best_of(&mut self.term, rest, seat),
        }
    }
}
