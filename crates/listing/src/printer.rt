// A printer: it builds text in a buffer of its own, line by line. Fields stand one blank apart.
use format::fault::Refusal;
use intake::counts::Counts;
use std::alloc::{AllocError, Global};

#[derive(Drop)]
pub struct Printer {
    heap: Global,
    out: Vec<u8>,
}

impl Printer {
    ghost use Rattle.std.specs.Prelude.{◌≡◌, ◌+◌, ◌≤◌, [], length};
    ghost use Rattle.listing.specs.Lines.{line_of_counts, line_of_name, line_of_refusal, number_field};
    ghost use Rattle.listing.specs.Print.{Writes, written};

    pub fn new(heap: Global) -> Printer
        ensures { written result ≡ [] }
    {
        Printer {
            heap,
            out: Vec::new(heap),
        }
    }

    pub fn finish(self) -> Vec<u8>
        ensures { result.items ≡ written self }
    {
        self.out
    }

    pub fn put(&mut self, text: &[u8]) -> Result<(), AllocError>
        ensures { Writes result self.old self.new text.now }
    {
        self.out.extend_from_slice(text)
    }

    fn field(&mut self, n: usize) -> Result<(), AllocError>
        ensures { Writes result self.old self.new (number_field n) }
    {
        let field = format!(in self.heap; " {n}")?;
        self.put(field.as_bytes())
    }

    // How many entries each table has. Field by field: one `format!` of all six numbers got no proof.
    pub fn counts_line(&mut self, counts: Counts) -> Result<(), AllocError>
        ensures { Writes result self.old self.new (line_of_counts counts) }
    {
        self.put(b"DECK")?;
        self.field(counts.groups)?;
        self.field(counts.seats)?;
        self.field(counts.reserves)?;
        self.field(counts.trainees)?;
        self.field(counts.wishes)?;
        self.field(counts.bars)?;
        self.put(b"\n")?;
        Ok(())
    }

    // The name of eight bytes that begins at a place of the deck, and a number.
    pub fn name_line(&mut self, deck: &[u8], place: usize, n: usize) -> Result<(), AllocError>
        requires { place + 8 ≤ length deck.now }
        ensures { Writes result self.old self.new (line_of_name deck.now place n) }
    {
        let rest = format!(in self.heap; " {n}\n")?;
        self.put(b"T ")?;
        self.put(&deck[place..place + 8])?;
        self.put(rest.as_bytes())
    }

    pub fn refusal_line(&mut self, refusal: Refusal) -> Result<(), AllocError>
        ensures { Writes result self.old self.new (line_of_refusal refusal) }
    {
        let line = format!(in self.heap;
            "REFUSED {} PLACE {} LAYER {}\n",
            refusal.number, refusal.place, refusal.layer
        )?;
        self.put(line.as_bytes())
    }
}
