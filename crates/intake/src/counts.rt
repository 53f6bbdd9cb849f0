// How many entries of each table a deck fills.
ghost use Rattle.intake.specs.Firsts.{firsts as firsts_of};
ghost use Rattle.rules.specs.Contents.{content_of};
ghost use Rattle.std.specs.Prelude.{◌≡◌, take};

use rules::table::Tables;

#[derive(Clone, Copy, PartialEq, Eq, Debug, Default)]
pub struct Counts {
    pub groups: usize,
    pub seats: usize,
    pub reserves: usize,
    pub trainees: usize,
    pub wishes: usize,
    pub bars: usize,
}

// The library has no call that cuts a slice only where it is longer.
fn front<T>(entries: &[T], n: usize) -> &[T]
    ensures { result.now ≡ take n entries.now }
{
    entries.get(..n).unwrap_or(entries)
}

impl Counts {
    // The first entries of the tables, as many as are counted.
    pub fn firsts<'a>(self, tables: Tables<'a>) -> Tables<'a>
        ensures { content_of result ≡ firsts_of self (content_of tables.entry) }
    {
        Tables {
            groups: front(tables.groups, self.groups),
            seats: front(tables.seats, self.seats),
            reserves: front(tables.reserves, self.reserves),
            trainees: front(tables.trainees, self.trainees),
            contracts: front(tables.contracts, self.wishes),
            bars: front(tables.bars, self.bars),
        }
    }
}
