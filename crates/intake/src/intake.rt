// Intake of a deck: its tables and their counts, or a refusal.
ghost use Rattle.intake.specs.Book.{Judged};
ghost use Rattle.intake.specs.Fillings.{SameLengths};
ghost use Rattle.intake.specs.Lent.{SameTables, content_of_lent};

use crate::counts::Counts;
use crate::fault::DeckFault;
use crate::fill::fill;
use crate::tables::TablesMut;

// Fills the tables of a deck and answers their counts.
#[tactic(auto, using(crate::proofs::Verdicts::judging))]
pub fn intake(bytes: &[u8], tables: &mut TablesMut) -> Result<Counts, DeckFault>
    ensures same { SameTables tables.old tables.new }
    ensures lengths { SameLengths (content_of_lent tables.old) (content_of_lent tables.new) }
    ensures judged { Judged bytes.now (content_of_lent tables.old) (content_of_lent tables.new) result }
{
    if !tables.are_roomy() {
        return Err(DeckFault::SmallTable);
    }
    tables.blank();
    let answer = fill(bytes, tables);
    if answer.is_err() {
        tables.blank();
    }
    answer
}
