// How waiting trainees move, as mathematics: a bag of trainees, one who joins, one who is taken.
#![tactic(auto)]

ghost use Rattle.moves.specs.Bags.{ThoseCounted};
ghost use Rattle.std.specs.Prelude.{IsTrue};

// Where just those wait of whom a test holds, each once, there are as many as the test counts. It does nothing: its contract is the law.
#[tactic(auto, using(crate::proofs::Bags::those_counted))]
pub fn those_are_counted() -> bool
    ensures told { IsTrue result }
    ensures counted { ThoseCounted }
{
    true
}
