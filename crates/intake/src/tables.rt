// The six tables that intake fills, lent together.
ghost use Rattle.std.specs.Prelude.{◌≡◌, Decides};
ghost use Rattle.intake.specs.Fillings.{PlaceFor, Roomy, blanks, counted, written};
ghost use Rattle.intake.specs.Firsts.{firsts as firsts_of};
ghost use Rattle.intake.specs.Lent.{SameTables, content_of_lent};
ghost use Rattle.rules.specs.Contents.{content_of};

use crate::counts::Counts;
use crate::entry::Entry;
use rules::table::{
    Barring, Contract, Group, MOST_BARS, MOST_CONTRACTS, MOST_GROUPS, MOST_RESERVES, MOST_SEATS,
    MOST_TRAINEES, Reservation, Seat, Tables, Trainee,
};

#[derive(Drop)]
pub struct TablesMut<'a> {
    pub groups: &'a mut [Group],
    pub seats: &'a mut [Seat],
    pub reserves: &'a mut [Reservation],
    pub trainees: &'a mut [Trainee],
    pub contracts: &'a mut [Contract],
    pub bars: &'a mut [Barring],
}

impl<'a> TablesMut<'a> {
    // Whether each table has at least its most entries.
    pub(crate) fn are_roomy(&self) -> bool
        ensures { Decides result (Roomy (content_of_lent self.now)) }
    {
        self.groups.len() >= MOST_GROUPS
            && self.seats.len() >= MOST_SEATS
            && self.reserves.len() >= MOST_RESERVES
            && self.trainees.len() >= MOST_TRAINEES
            && self.contracts.len() >= MOST_CONTRACTS
            && self.bars.len() >= MOST_BARS
    }

    // Blanks every entry; the tables are lent, so no value of their own could be made.
    pub(crate) fn blank(&mut self)
        ensures same { SameTables self.old self.new }
        ensures entries { content_of_lent self.new ≡ blanks (content_of_lent self.old) }
    {
        self.groups.fill(Group::default());
        self.seats.fill(Seat::default());
        self.reserves.fill(Reservation::default());
        self.trainees.fill(Trainee::default());
        self.contracts.fill(Contract::default());
        self.bars.fill(Barring::default());
    }

    // The entries that are counted, for reading.
    pub(crate) fn firsts(&self, had: Counts) -> Tables<'_>
        ensures { content_of result ≡ firsts_of had (content_of_lent self.now) }
    {
        had.firsts(Tables {
            groups: self.groups,
            seats: self.seats,
            reserves: self.reserves,
            trainees: self.trainees,
            contracts: self.contracts,
            bars: self.bars,
        })
    }

    // Writes an entry at the end of its table's entries, and counts it.
    pub(crate) fn store(&mut self, entry: Entry, had: Counts) -> Counts
        requires { PlaceFor had (content_of_lent self.old) entry }
        ensures same { SameTables self.old self.new }
        ensures counts { result ≡ counted had entry }
        ensures entries { content_of_lent self.new ≡ written had (content_of_lent self.old) entry }
    {
        let mut counts = had;
        match entry {
            Entry::Group(x) => {
                self.groups[had.groups] = x;
                counts.groups += 1;
            }
            Entry::Seat(x) => {
                self.seats[had.seats] = x;
                counts.seats += 1;
            }
            Entry::Reserve(x) => {
                self.reserves[had.reserves] = x;
                counts.reserves += 1;
            }
            Entry::Trainee(x) => {
                self.trainees[had.trainees] = x;
                counts.trainees += 1;
            }
            Entry::Contract(x) => {
                self.contracts[had.wishes] = x;
                counts.wishes += 1;
            }
            Entry::Bar(x) => {
                self.bars[had.bars] = x;
                counts.bars += 1;
            }
            Entry::End(_) => {}
        }
        counts
    }
}
