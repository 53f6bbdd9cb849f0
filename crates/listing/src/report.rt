// A record of what a deck says, or the line of its refusal.
ghost use Rattle.deck.specs.Alike.{Fits};
ghost use Rattle.deck.specs.Contents.{bytes_of, data_of};
ghost use Rattle.intake.specs.Book.{Due};
ghost use Rattle.intake.specs.Refusals.{refusal};
ghost use Rattle.listing.specs.Lines.{counts_of, line_of_refusal, text_of_deck, lines_of_trainees, wishes};
ghost use Rattle.listing.specs.Outcomes.{Outcome};
ghost use Rattle.listing.specs.Print.{Writes};
ghost use Rattle.rules.specs.Contents.{content_of};
ghost use Rattle.std.specs.Prelude.{◌≡◌, ℕ, List, length, IfOk};

use crate::printer::Printer;
use deck::deck::Deck;
use intake::book::Book;
use intake::counts::Counts;
use intake::fault::DeckFault;
use rules::table::{Contract, Tables};
use std::alloc::{AllocError, Global};

// How many contracts are of this trainee. `filter(..).count()` would say the same in twice the instructions.
#[tactic(auto, using(crate::proofs::Wishes::wish_more, crate::proofs::Wishes::wish_other, crate::proofs::Wishes::wish_all))]
fn wish_count(contracts: &[Contract], trainee: usize) -> usize
    ensures { result ≡ wishes trainee contracts.now }
{
    let mut n = 0;
    for c in contracts {
        if usize::from(c.trainee) == trainee {
            n += 1;
        }
    }
    n
}

// How many entries each table of a deck has.
fn counts_of(deck: &Deck) -> Counts
    ensures { result ≡ counts_of (data_of deck.now) }
{
    Counts {
        groups: deck.groups().len(),
        seats: deck.seats().len(),
        reserves: deck.reserves().len(),
        trainees: deck.trainees().len(),
        wishes: deck.contracts().len(),
        bars: deck.bars().len(),
    }
}

fn trainee_lines(printer: &mut Printer, deck: &Deck) -> Result<(), AllocError>
    ensures { Writes result printer.old printer.new
        (lines_of_trainees (bytes_of deck.now) (data_of deck.now) (length (data_of deck.now).trainees)) }
{
    for (k, trainee) in deck.trainees().iter().enumerate() {
        let n = wish_count(deck.contracts(), k);
        printer.name_line(deck.bytes(), trainee.name, n)?;
    }
    Ok(())
}

fn deck_text(printer: &mut Printer, deck: &Deck) -> Result<(), AllocError>
    ensures { Writes result printer.old printer.new (text_of_deck (bytes_of deck.now) (data_of deck.now)) }
{
    printer.counts_line(counts_of(deck))?;
    trainee_lines(printer, deck)?;
    printer.put(b"END\n")?;
    Ok(())
}

// The line of a refusal, which is printed of all bytes at which it is due.
fn refused(heap: Global, fault: DeckFault) -> Result<Vec<u8>, AllocError>
    ensures line { IfOk result (λ v. v.items ≡ line_of_refusal (refusal fault)) }
    ensures outcome { (all : List ℕ) → Due all (refusal fault) → IfOk result (λ v. Outcome all v.items) }
{
    let mut printer = Printer::new(heap);
    printer.refusal_line(fault.into())?;
    Ok(printer.finish())
}

fn dealt<'a>(
    heap: Global,
    bytes: &'a [u8],
    tables: Tables<'a>,
    counts: Counts,
) -> Result<Vec<u8>, AllocError>
    requires { Fits bytes.now counts (content_of tables) }
    ensures { IfOk result (λ v. Outcome bytes.now v.items) }
{
    let mut deck: Deck<'a> = Deck::empty();
    if let Err(fault) = deck.bind(bytes, tables, counts) {
        return refused(heap, fault);
    }
    let mut printer = Printer::new(heap);
    deck_text(&mut printer, &deck)?;
    Ok(printer.finish())
}

// The text that is printed of these bytes.
pub fn report(heap: Global, bytes: &[u8]) -> Result<Vec<u8>, AllocError>
    ensures { IfOk result (λ v. Outcome bytes.now v.items) }
{
    let mut book = Book::default();
    match book.take_in(bytes) {
        Err(fault) => refused(heap, fault),
        Ok(counts) => dealt(heap, bytes, book.tables(), counts),
    }
}
