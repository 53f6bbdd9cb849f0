// The contracts of a list in a row.
ghost use Rattle.std.specs.Prelude.{◌≡◌, ◌≤◌, length};
ghost use Rattle.board.specs.Marked.{contracts_of, list_of};
ghost use Rattle.board.specs.Marks.{member};
ghost use Rattle.deck.specs.Contents.{data_of};
ghost use Rattle.ranking.specs.Keys.{Placed, numbers};
ghost use Rattle.ranking.specs.Rows.{InRow, Lined};
ghost use Rattle.rules.specs.Contents.{rule_or_rank};

use crate::key::{Key, key_of};
use arrayvec::ArrayVec;
use board::marked::Marked;
use board::marks::fit;
use board::unfit::Unfit;
use deck::deck::Deck;
use rules::table::{Contract, Rule};

fn numbers(keys: &[Key]) -> ArrayVec<u16, 2048>
    requires { length keys.now ≤ 2048 }
    ensures { result.items ≡ numbers keys.now }
{
    let mut row = ArrayVec::new();
    // `collect` into an ArrayVec wants an allocator, and answers a Result.
    for key in keys {
        row.push(key.number);
    }
    row
}

// Sorts the keys where they lie, and takes their numbers.
fn place(keys: &mut [Key]) -> ArrayVec<u16, 2048>
    requires { length keys.old ≤ 2048 }
    ensures placed { Placed keys.old result.items }
    ensures few { length result.items ≤ 2048 }
{
    keys.sort_unstable();
    numbers(keys)
}

// The marked contracts in a row: one dredger after the other, and within each by the rule.
fn in_row(contracts: &[Contract], marks: &[u8], rule: Rule) -> ArrayVec<u16, 2048>
    requires fits { length marks.now ≡ length contracts.now }
    requires few { length contracts.now ≤ 2048 }
    ensures { InRow rule contracts.now (member marks.now) result.items }
{
    let mut keys = ArrayVec::<Key, 2048>::new();
    // As in `numbers`, a loop pushes.
    for (k, contract) in contracts.iter().enumerate() {
        if marks[k] != 0 {
            keys.push(key_of(rule, contract, k as u16));
        }
    }
    place(&mut keys)
}

// The contracts of a list in a row.
pub fn row_by(list: &Marked, rule: Rule) -> ArrayVec<u16, 2048>
    ensures { InRow rule (contracts_of list.now) (list_of list.now) result.items }
{
    in_row(list.contracts(), list.marks(), rule)
}

// Writes the row of the marked contracts at the front of `row`, and tells how many they are. A rule comes by its number, as a deck gives it; any other number means by rank.
pub fn line_up(deck: &Deck, marks: &[u8], rule: u8, row: &mut [u16; 2048]) -> Result<usize, Unfit>
    ensures { Lined (rule_or_rank rule) (data_of deck.now).contracts marks.now row.old row.new result }
{
    fit(deck, marks)?;
    let numbers = in_row(
        deck.contracts(),
        marks,
        Rule::try_from(rule).unwrap_or_default(),
    );
    let count = numbers.len();
    row[..count].copy_from_slice(&numbers);
    Ok(count)
}
