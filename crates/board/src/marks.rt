// Lists of contracts, as marks.
ghost use Rattle.std.specs.Prelude.{◌≡◌, ℕ, ◌<◌, length, if◌then◌else◌, slice_index};
ghost use Rattle.board.specs.Calls.{Asked, Fitting};
ghost use Rattle.board.specs.Marks.{AnswersAs, KeptBy, marked, member};
ghost use Rattle.deck.specs.Contents.{data_of};
ghost use Rattle.matching.specs.Sets.{Set, common, minus};

use crate::unfit::Unfit;
use deck::deck::Deck;

// Are there as many marks as the deck has contracts?
pub fn fit(deck: &Deck, marks: &[u8]) -> Result<(), Unfit>
    ensures { Fitting (length (data_of deck.now).contracts) marks.now result }
{
    if marks.len() != deck.contracts().len() {
        return Err(Unfit::Marks);
    }
    Ok(())
}

// Is contract k in the list? Beyond the end of the marks there is none.
pub fn is_in(marks: &[u8], k: usize) -> bool
    ensures { result ≡ member marks.now k }
{
    k < marks.len() && marks[k] != 0
}

// Is contract k of the deck in the list? It asks what `why` asks first, in the same order.
pub fn is_listed(deck: &Deck, marks: &[u8], k: u16) -> Result<bool, Unfit>
    ensures { Asked (length (data_of deck.now).contracts) marks.now k result }
{
    fit(deck, marks)?;
    if usize::from(k) >= marks.len() {
        return Err(Unfit::Contract);
    }
    Ok(is_in(marks, usize::from(k)))
}

// Writes this byte at each contract of a list; marks beyond the end are left out. A `zip` of both would tell nothing of the marks afterwards.
fn write(marks: &mut [u8], list: &[u8], byte: u8)
    ensures { (k : ℕ) → k < length marks.old → slice_index marks.new k ≡ (if member list.now k then byte else slice_index marks.old k) }
{
    for (k, mark) in marks.iter_mut().enumerate() {
        if is_in(list, k) {
            *mark = byte;
        }
    }
}

// Takes the contracts of `out` out of the marks.
#[tactic(auto, using(crate::proofs::Marking::struck))]
pub fn take_out(marks: &mut [u8], out: &[u8])
    ensures { member marks.new ≡ minus (member marks.old) (member out.now) }
{
    write(marks, out, 0);
}

// Writes 1 for each contract of `more`; marks beyond the end are left out.
pub fn put_in(marks: &mut [u8], more: &[u8])
    ensures { (k : ℕ) → k < length marks.old → slice_index marks.new k ≡ (if member more.now k then 1 else slice_index marks.old k) }
{
    write(marks, more, 1);
}

// Writes 1 for each contract of the marks that a test keeps, else 0.
pub fn keep_only<F: Fn(usize) -> bool>(marks: &mut [u8], keeps: F)
    requires { (k : ℕ) → k < length marks.old → F.pre keeps k }
    ensures each { KeptBy (λ f k b. F.post f k b) keeps marks.old marks.new }
    ensures kept { (p : Set) → AnswersAs (λ f k b. F.post f k b) keeps (length marks.old) p →
        marks.new ≡ marked (length marks.old) (common (member marks.old) p) }
{
    for (k, mark) in marks.iter_mut().enumerate() {
        *mark = u8::from(*mark != 0 && keeps(k));
    }
}
