// Reading a deck's records in turn into blank tables.
ghost use Rattle.std.specs.Prelude.{◌≡◌, ◌<◌, ◌≤◌, length, MatchResult};
ghost use Rattle.format.specs.Reader.{SameBytes, rest_of};
ghost use Rattle.intake.specs.Book.{Due, EndNo, Fills};
ghost use Rattle.intake.specs.Fillings.{Roomy, SameLengths, blanks};
ghost use Rattle.intake.specs.Lent.{SameTables, content_of_lent};
ghost use Rattle.intake.specs.Refusals.{refusal};
ghost use Rattle.intake.specs.Rows.{Entered, Led};
ghost use Rattle.rules.specs.Contents.{content_of};
ghost use Rattle.rules.specs.Rules.{RecordNo};

use crate::counts::Counts;
use crate::entry::{Entry, entry_of};
use crate::fault::DeckFault;
use crate::tables::TablesMut;
use format::reader::Reader;
use rules::admit::admit;
use rules::fault::RecordFault;
use rules::section::Section;
use rules::table::Tables;

// The most bytes that a deck has: the most records of each kind, and E.
pub const LONGEST: usize = 15363;

// The entry of the next record, where it may stand here and keeps the rules, and the section after it. `place` and `few` are asked as where entries are made.
fn next_entry(
    reader: &mut Reader,
    section: Section,
    past: Tables,
) -> Result<(Entry, Section), RecordFault>
    requires place { reader.old.place ≤ 15363 }
    requires few { length past.trainees.now ≤ 256 }
    requires led { Led section (content_of past) }
    ensures same { SameBytes reader.old reader.new }
    ensures cases { MatchResult result (Entered section (content_of past.entry) reader.old reader.new)
        (RecordNo section (content_of past.entry) (rest_of reader.old) reader.old.place) }
{
    let place = reader.place();
    let (rec, next) = admit(reader, section, past)?;
    let entry = entry_of(rec, place, past);
    Ok((entry, next))
}

// Questions 10 and 11 of an E at `place`, where the next byte would stand at `end` of a deck of `size` bytes.
fn close(
    count: u16,
    had: Counts,
    place: usize,
    end: usize,
    size: usize,
) -> Result<Counts, DeckFault>
    ensures { MatchResult result (λ c. (c ≡ had) × (count ≡ had.wishes) × (end ≡ size)) (λ f. EndNo count had.wishes place end size f) }
{
    if usize::from(count) != had.wishes {
        return Err(DeckFault::WrongCount { place });
    }
    if end != size {
        return Err(DeckFault::Trailing { place: end });
    }
    Ok(had)
}

// Fills blank tables that are large enough.
pub(crate) fn fill(bytes: &[u8], tables: &mut TablesMut) -> Result<Counts, DeckFault>
    requires roomy { Roomy (content_of_lent tables.old) }
    requires blank { content_of_lent tables.old ≡ blanks (content_of_lent tables.old) }
    ensures same { SameTables tables.old tables.new }
    ensures lengths { SameLengths (content_of_lent tables.old) (content_of_lent tables.new) }
    ensures cases { MatchResult result (λ c. Fills bytes.now c (content_of_lent tables.new)) (λ f. Due bytes.now (refusal f)) }
{
    if bytes.len() > LONGEST {
        return Err(DeckFault::TooLong);
    }
    let mut reader = Reader::new(bytes);
    let mut section = Section::Groups;
    let mut had = Counts::default();
    // One record after another, until E or a fault.
    loop {
        let place = reader.place();
        let past = tables.firsts(had);
        let (entry, next) = next_entry(&mut reader, section, past)?;
        if let Entry::End(count) = entry {
            return close(count, had, place, reader.place(), bytes.len());
        }
        had = tables.store(entry, had);
        section = next;
    }
}
