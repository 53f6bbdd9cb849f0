// The mathematics of matching: choice functions and their laws, markets, and stable lists. It knows no deck.
#![tactic(auto)]

ghost use Rattle.matching.specs.Facts.{BesideLawful, FirstLawful, OneBest, OneRemoved, OverLawful, PathIndependent, Settled, WithoutLawful};
ghost use Rattle.std.specs.Prelude.{IsTrue};

// What holds of every lawful choice. This function and the two below do nothing: their contracts are the theorems.
pub fn lawful_choices_stand() -> bool
    ensures told { IsTrue result }
    ensures settled { Settled }
    ensures paths { PathIndependent }
{
    true
}

// How choices are made that are lawful again.
pub fn made_choices_stand() -> bool
    ensures told { IsTrue result }
    ensures removed { OneRemoved }
    ensures without { WithoutLawful }
    ensures over { OverLawful }
    ensures beside { BesideLawful }
    ensures first { FirstLawful }
{
    true
}

// A market and a choice have at most one best list.
pub fn best_is_one() -> bool
    ensures told { IsTrue result }
    ensures one { OneBest }
{
    true
}
