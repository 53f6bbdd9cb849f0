// A reader: a deck's bytes, and the place of the next record.
ghost use Rattle.std.specs.Prelude.{◌≡◌, ◌≤◌, length};

use crate::decode::{front_of, kind_of};
use crate::fault::ByteFault;
use crate::record::{Kind, Record};

#[derive(Drop)]
pub struct Reader<'a> {
    bytes: &'a [u8],
    place: usize,
    ghost inside: { place ≤ length bytes.now },
}

impl<'a> Reader<'a> {
    ghost use Rattle.std.specs.Prelude.{◌≡◌, MatchResult};
    ghost use Rattle.format.specs.Layout.{Begins, Fronts};
    ghost use Rattle.format.specs.Questions.{ByteNo, KindNo};
    ghost use Rattle.format.specs.Reader.{Took, rest_of};

    pub fn new(bytes: &'a [u8]) -> Reader<'a>
        ensures { (result.bytes.now ≡ bytes.now) × (result.place ≡ 0) }
    {
        Reader { bytes, place: 0 }
    }

    pub fn place(&self) -> usize
        ensures { result ≡ self.now.place }
    {
        self.place
    }

    // The bytes from the next record on.
    fn rest(&self) -> &'a [u8]
        ensures { result.now ≡ rest_of self.now }
    {
        &self.bytes[self.place..]
    }

    // The kind of the next record, which stays.
    pub fn kind(&self) -> Result<Kind, ByteFault>
        ensures { MatchResult result (Begins (rest_of self.now)) (KindNo (rest_of self.now) self.now.place) }
    {
        kind_of(self.rest(), self.place)
    }

    // Takes the next record off; a refusal leaves the reader as it was.
    pub fn take(&mut self) -> Result<Record, ByteFault>
        ensures { MatchResult result (Took self.old self.new)
            (λ f. ByteNo (rest_of self.old) self.old.place f × (self.new ≡ self.old)) }
    {
        let record = front_of(self.rest(), self.place)?;
        self.place += record.kind().size();
        Ok(record)
    }
}
