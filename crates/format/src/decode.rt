// Decoding: one slice pattern for each kind of record.
ghost use Rattle.std.specs.Prelude.{◌<◌, length, MatchOption, MatchResult};
ghost use Rattle.format.specs.Layout.{Begins, Fronts, size};
ghost use Rattle.format.specs.Questions.{ByteNo, KindNo};

use crate::fault::ByteFault;
use crate::record::{Kind, Record};

// The kind whose letter begins `rest`, which stands at `place`: a match of slice patterns, as that of the records below.
pub fn kind_of(rest: &[u8], place: usize) -> Result<Kind, ByteFault>
    ensures { MatchResult result (Begins rest.now) (KindNo rest.now place) }
{
    match rest {
        [] => Err(ByteFault::NoByte { place }),
        [b'G', ..] => Ok(Kind::Group),
        [b'S', ..] => Ok(Kind::Seat),
        [b'R', ..] => Ok(Kind::Reserve),
        [b'T', ..] => Ok(Kind::Trainee),
        [b'W', ..] => Ok(Kind::Wish),
        [b'B', ..] => Ok(Kind::Bar),
        [b'E', ..] => Ok(Kind::End),
        _ => Err(ByteFault::NoKind { place }),
    }
}

// The record that begins `rest`, where it is whole.
fn record_of(rest: &[u8]) -> Option<Record>
    ensures { MatchOption result ((k : Kind) → Begins rest.now k → length rest.now < size k) (Fronts rest.now) }
{
    let record = match rest {
        [b'G', parent, lo, hi, name @ ..] => Record::Group {
            parent: *parent,
            capacity: u16::from_le_bytes([*lo, *hi]),
            name: *name.first_chunk()?,
        },
        [b'S', dredger, rule, ..] => Record::Seat {
            dredger: *dredger,
            rule: *rule,
        },
        [b'R', dredger, lo, hi, ..] => Record::Reserve {
            dredger: *dredger,
            seats: u16::from_le_bytes([*lo, *hi]),
        },
        [b'T', lo, hi, flag, name @ ..] => Record::Trainee {
            lot: u16::from_le_bytes([*lo, *hi]),
            flag: *flag,
            name: *name.first_chunk()?,
        },
        [b'W', group, lo, hi, term, ..] => Record::Wish {
            group: *group,
            points: u16::from_le_bytes([*lo, *hi]),
            term: *term,
        },
        [b'B', dredger, ..] => Record::Bar { dredger: *dredger },
        [b'E', lo, hi, ..] => Record::End {
            wishes: u16::from_le_bytes([*lo, *hi]),
        },
        _ => return None,
    };
    Some(record)
}

// The record that begins `rest`, which stands at `place`.
pub fn front_of(rest: &[u8], place: usize) -> Result<Record, ByteFault>
    ensures { MatchResult result (Fronts rest.now) (ByteNo rest.now place) }
{
    kind_of(rest, place)?;
    record_of(rest).ok_or(ByteFault::Short { place })
}
