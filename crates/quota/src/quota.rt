// A board of 64 rows, one for each group that a deck may have.
ghost use Rattle.board.specs.Calls.{Chosen};
ghost use Rattle.board.specs.Marked.{contracts_of, list_of};
ghost use Rattle.deck.specs.Contents.{data_of};
ghost use Rattle.quota.specs.Caps.{Earlier, given_row, quota, quota_reason, row_at};
ghost use Rattle.quota.specs.Climb.{Climbed, turned};
ghost use Rattle.quota.specs.Laws.{quota-lawful, reason-coded};
ghost use Rattle.quota.specs.Rule.{Rule};
ghost use Rattle.quota.specs.Walk.{Numbers, Told, Walked};
ghost use Rattle.rules.specs.declared.table.Contract.{Contract};
ghost use Rattle.std.specs.Prelude.{◌≡◌, ℕ, ◌<◌, IsTrue, List, length};

use crate::row::Row;
use crate::sums::Sums;
use board::board::Board;
use board::explain::Explain;
use board::marked::Marked;
use board::marks::{is_listed, keep_only};
use board::unfit::Unfit;
use deck::deck::Deck;
use ranking::row::row_by;
use rules::table::Contract;

// The laws take a board as a value, of which only its fields' lists are known: that its rows are 64 is therefore an invariant.
#[derive(Drop)]
pub struct Quota {
    rows: [Row; 64],
    ghost whole: { length rows ≡ 64 },
    ghost earlier: { Earlier rows },
}

// A group comes by its number in the deck's entries, which hold plain numbers: hence each `requires` of a number below 64.
impl Quota {
    // The board of a deck's groups. A row that the deck has no group for has no parent and cap 0.
    pub fn of(deck: &Deck) -> Quota
        ensures { (v : ℕ) → v < 64 → row_at result.rows v ≡ given_row (data_of deck.now).groups v }
    {
        let groups = deck.groups();
        let mut rows = [Row::default(); 64];
        // A `zip` with `rows.iter_mut()` would tell nothing of the rows afterwards.
        for (v, group) in groups.iter().enumerate() {
            rows[v] = Row::from(group);
        }
        Quota { rows }
    }

    // What the board keeps, and the reasons it gives, follow the rule of its rows for all contracts.
    #[tactic(auto, using(crate::proofs::Ruled::ruled))]
    pub fn follows_its_rule(&self) -> bool
        ensures told { IsTrue result }
        ensures ruled { (cs : List Contract) → Rule self.now.rows cs }
    {
        true
    }

    fn row(&self, v: u8) -> Row
        requires { v < 64 }
        ensures { result ≡ row_at self.now.rows v }
    {
        self.rows[usize::from(v)]
    }

    // Counts one contract more directly in a group: in each group upwards, until one is full. It tells which was, if one was.
    fn climb(&self, sums: &mut Sums, group: u8) -> Option<u8>
        requires { group < 64 }
        ensures { Climbed self.now.rows sums.old group sums.new result }
    {
        let mut v = group;
        while sums.take_place(v, self.row(v).cap) {
            v = self.row(v).parent?;
        }
        Some(v)
    }

    // Counts a contract in the sums of its dredger, and tells where it is stopped.
    fn count(&self, contract: &Contract, sums: &mut Sums) -> Option<u8>
        requires { contract.now.group < 64 }
        ensures { Climbed self.now.rows (turned sums.old contract.now.dredger) contract.now.group sums.new result }
    {
        sums.turn(contract.dredger);
        self.climb(sums, contract.group)
    }

    // Finds where the contracts in a row are stopped, one after the other.
    fn walk(&self, deck: &Deck, row: &[u16]) -> [Option<u8>; 2048]
        requires { Numbers (length (data_of deck.now).contracts) row.now }
        ensures { Walked self.now.rows (data_of deck.now).contracts row.now result }
    {
        let contracts = deck.contracts();
        let mut sums = Sums::new();
        let mut stops = [None; 2048];
        for number in row {
            let k = usize::from(*number);
            stops[k] = self.count(&contracts[k], &mut sums);
        }
        stops
    }

    // Finds where each contract of a list is stopped, if it is.
    fn find_stops(&self, list: &Marked) -> [Option<u8>; 2048]
        ensures { Told self.now.rows (contracts_of list.now) (list_of list.now) result }
    {
        let row = row_by(list, rules::table::Rule::Rank);
        self.walk(list.deck(), &row)
    }
}

impl Board for Quota {
    ghost kept = { λ s t X. quota s.rows t.contracts X };

    ghost part = { λ b t of-deck. (quota-lawful b.rows b.earlier b.whole t.contracts).part };

    ghost substitutable = { λ b t of-deck. (quota-lawful b.rows b.earlier b.whole t.contracts).substitutable };

    ghost irrelevant = { λ b t of-deck. (quota-lawful b.rows b.earlier b.whole t.contracts).irrelevant };

    fn choose(&self, deck: &Deck, marks: &mut [u8]) -> Result<(), Unfit> {
        let list = Marked::of(deck, marks)?;
        let stops = self.find_stops(&list);
        keep_only(marks, |k| stops[k].is_none());
        Ok(())
    }
}

impl Explain for Quota {
    ghost reason = { λ s t X k. quota_reason s.rows t.contracts X k };

    ghost further = { λ b t of-deck X within k x out. reason-coded b.rows t.contracts X k x out };

    fn why(&self, deck: &Deck, marks: &[u8], k: u16) -> Result<(u8, u16), Unfit> {
        if !is_listed(deck, marks, k)? {
            return Ok((1, 0));
        }
        let list = Marked::of(deck, marks)?;
        let stops = self.find_stops(&list);
        Ok(stops[usize::from(k)].map_or((0, 0), |v| (2, u16::from(v))))
    }
}
