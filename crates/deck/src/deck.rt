// A deck: the bytes and the entries that intake gave, for reading.
ghost use Rattle.std.specs.Prelude.{◌≤◌, length};
ghost use Rattle.deck.specs.Facts.{BarTrainees, BarsApart, BarsGiven, DredgersCarried, Earlier, FlagsCarried, GroupNames, GroupsGiven, GroupsPrinted};
ghost use Rattle.deck.specs.Facts.{Inherited, LotsApart, LotsCarried, Own, ReservesApart, ReservesGiven, Rising, SeatRules, SeatsGiven, Terms, Topped};
ghost use Rattle.deck.specs.Facts.{TraineeNames, TraineesGiven, TraineesPrinted, WishesApart};
ghost use Rattle.deck.specs.Lawful.{Deals};
ghost use Rattle.rules.specs.Contents.{content_of};

use rules::table::{Barring, Contract, Group, Reservation, Seat, Tables, Trainee};

// The tables hold the entries alone, without blanks. `lawful` says that a row of lawful records spells these bytes and has these entries; the other
// facts follow from it, and stand by themselves for those who read the entries.
#[derive(Clone, Copy)]
pub struct Deck<'a> {
    bytes: &'a [u8],
    tables: Tables<'a>,
    ghost lawful: { ∥ Deals bytes.now (content_of tables) ∥₁ },
    ghost few_groups: { length tables.groups.now ≤ 64 },
    ghost few_seats: { length tables.seats.now ≤ 256 },
    ghost few_reserves: { length tables.reserves.now ≤ 64 },
    ghost few_trainees: { length tables.trainees.now ≤ 256 },
    ghost few_contracts: { length tables.contracts.now ≤ 2048 },
    ghost few_bars: { length tables.bars.now ≤ 128 },
    ghost earlier: { Earlier tables.groups.now },
    ghost own: { Own tables.groups.now },
    ghost inherited: { Inherited tables.groups.now },
    ghost topped: { Topped tables.groups.now },
    ghost group_names: { GroupNames bytes.now tables.groups.now },
    ghost groups_printed: { GroupsPrinted bytes.now tables.groups.now },
    ghost seats_given: { SeatsGiven tables.groups.now tables.seats.now },
    ghost seat_rules: { SeatRules tables.seats.now },
    ghost reserves_given: { ReservesGiven tables.groups.now tables.reserves.now },
    ghost reserves_apart: { ReservesApart tables.reserves.now },
    ghost trainee_names: { TraineeNames bytes.now tables.trainees.now },
    ghost trainees_printed: { TraineesPrinted bytes.now tables.trainees.now },
    ghost lots_apart: { LotsApart tables.trainees.now },
    ghost trainees_given: { TraineesGiven tables.trainees.now tables.contracts.now },
    ghost lots_carried: { LotsCarried tables.trainees.now tables.contracts.now },
    ghost flags_carried: { FlagsCarried tables.trainees.now tables.contracts.now },
    ghost groups_given: { GroupsGiven tables.groups.now tables.contracts.now },
    ghost dredgers_carried: { DredgersCarried tables.groups.now tables.contracts.now },
    ghost terms: { Terms tables.contracts.now },
    ghost rising: { Rising tables.contracts.now },
    ghost wishes_apart: { WishesApart tables.contracts.now },
    ghost bar_trainees: { BarTrainees tables.trainees.now tables.bars.now },
    ghost bars_given: { BarsGiven tables.groups.now tables.bars.now },
    ghost bars_apart: { BarsApart tables.bars.now },
}

impl<'a> Deck<'a> {
    ghost use Rattle.deck.specs.Contents.{bytes_of, data_of};
    ghost use Rattle.rules.specs.Contents.{nothing};
    ghost use Rattle.std.specs.Prelude.{◌≡◌, [], ◌∷◌};

    // The deck of E with number 0 alone.
    pub fn empty() -> Deck<'a>
        ensures bytes { bytes_of result ≡ 69 ∷ 0 ∷ 0 ∷ [] }
        ensures entries { data_of result ≡ nothing }
    {
        Deck::made(b"E\0\0", Tables::default())
    }

    // The deck of these bytes and entries, which a lawful row gives.
    pub(crate) fn made(bytes: &'a [u8], tables: Tables<'a>) -> Deck<'a>
        requires { Deals bytes.now (content_of tables) }
        ensures bytes { bytes_of result ≡ bytes.now }
        ensures entries { data_of result ≡ content_of tables.entry }
    {
        Deck { bytes, tables }
    }

    pub fn bytes(&self) -> &'a [u8]
        ensures { result.now ≡ bytes_of self.now }
    {
        self.bytes
    }

    pub fn groups(&self) -> &'a [Group]
        ensures { result.now ≡ (data_of self.now).groups }
    {
        self.tables.groups
    }

    pub fn seats(&self) -> &'a [Seat]
        ensures { result.now ≡ (data_of self.now).seats }
    {
        self.tables.seats
    }

    pub fn reserves(&self) -> &'a [Reservation]
        ensures { result.now ≡ (data_of self.now).reserves }
    {
        self.tables.reserves
    }

    pub fn trainees(&self) -> &'a [Trainee]
        ensures { result.now ≡ (data_of self.now).trainees }
    {
        self.tables.trainees
    }

    // The contracts, in place, by their numbers.
    pub fn contracts(&self) -> &'a [Contract]
        ensures { result.now ≡ (data_of self.now).contracts }
    {
        self.tables.contracts
    }

    pub fn bars(&self) -> &'a [Barring]
        ensures { result.now ≡ (data_of self.now).bars }
    {
        self.tables.bars
    }
}
