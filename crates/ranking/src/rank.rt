// The order of a dredger's contracts.
ghost use Rattle.ranking.specs.Rank.{RankOrders, RulesOrder};
ghost use Rattle.std.specs.Prelude.{IsTrue};

// Every rule is a strict order in which any two contracts compare. This function and the next do nothing: their contracts are the laws.
pub fn rules_are_orders() -> bool
    ensures told { IsTrue result }
    ensures orders { RulesOrder }
{
    true
}

// Ranking above is a strict order in which any two contracts of one dredger compare.
pub fn rank_is_an_order() -> bool
    ensures told { IsTrue result }
    ensures orders { RankOrders }
{
    true
}
