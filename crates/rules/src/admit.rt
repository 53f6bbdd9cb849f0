// Admitting the next record of a deck.
ghost use Rattle.std.specs.Prelude.{MatchResult};
ghost use Rattle.format.specs.Reader.{SameBytes, rest_of};
ghost use Rattle.rules.specs.Contents.{content_of};
ghost use Rattle.rules.specs.Rules.{Admitted, RecordNo};

use crate::fault::RecordFault;
use crate::judge::judge;
use crate::section::{Section, advance};
use crate::table::Tables;
use format::reader::Reader;
use format::record::Record;

// Takes the next record off, where it may stand here and keeps the rules, and answers it with the section after it.
#[tactic(auto, using(crate::proofs::Faults::broken))]
pub fn admit(
    reader: &mut Reader,
    section: Section,
    past: Tables,
) -> Result<(Record, Section), RecordFault>
    ensures same { SameBytes reader.old reader.new }
    ensures cases { MatchResult result (Admitted section (content_of past.entry) reader.old reader.new)
        (RecordNo section (content_of past.entry) (rest_of reader.old) reader.old.place) }
{
    let place = reader.place();
    let next = advance(section, reader.kind()?, place)?;
    let rec = reader.take()?;
    judge(rec, past, place)?;
    Ok((rec, next))
}
