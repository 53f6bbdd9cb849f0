// Six tables of any size.
use format::fault::Refusal;
use intake::counts::Counts;
use intake::intake::intake;
use intake::tables::TablesMut;
use rules::table::{
    Barring, Contract, Group, Reservation, Rule, Seat, Tables, Trainee, UnknownRule,
};
use std::alloc::{AllocError, Global};

// The least sizes that intake takes.
pub const LEAST: Counts = Counts {
    groups: 64,
    seats: 256,
    reserves: 64,
    trainees: 256,
    wishes: 2048,
    bars: 128,
};

pub const LONGER: Counts = Counts {
    groups: 65,
    seats: 260,
    reserves: 70,
    trainees: 257,
    wishes: 2050,
    bars: 200,
};

// Entries that no blank entry is equal to.
const OLD_GROUP: Group = Group {
    parent: Some(7),
    capacity: 70,
    name: 700,
    dredger: 7,
};

const OLD_SEAT: Seat = Seat {
    dredger: 7,
    rule: Ok(Rule::Term),
};

const OLD_RESERVATION: Reservation = Reservation {
    dredger: 7,
    seats: 70,
};

const OLD_TRAINEE: Trainee = Trainee {
    lot: 70,
    flag: true,
    name: 700,
};

const OLD_CONTRACT: Contract = Contract {
    trainee: 7,
    group: 7,
    dredger: 7,
    points: 70,
    term: 7,
    lot: 70,
    flag: true,
};

const OLD_BARRING: Barring = Barring {
    trainee: 7,
    dredger: 7,
};

// One of the six tables.
#[derive(Clone, Copy, Debug)]
pub enum Table {
    Groups,
    Seats,
    Reserves,
    Trainees,
    Contracts,
    Bars,
}

pub const EACH_TABLE: [Table; 6] = [
    Table::Groups,
    Table::Seats,
    Table::Reserves,
    Table::Trainees,
    Table::Contracts,
    Table::Bars,
];

#[derive(Drop)]
pub struct HeapTables {
    pub groups: Vec<Group>,
    pub seats: Vec<Seat>,
    pub reserves: Vec<Reservation>,
    pub trainees: Vec<Trainee>,
    pub contracts: Vec<Contract>,
    pub bars: Vec<Barring>,
}

// Whether a table has these entries at its front, and is blank behind them.
fn begins<T: Copy + Default + PartialEq>(table: &[T], front: &[T]) -> bool {
    let blank = T::default();
    table
        .strip_prefix(front)
        .is_some_and(|rest| rest.iter().all(|entry| *entry == blank))
}

// Whether each table has these entries at its front, and is blank behind them.
pub fn hold(tables: Tables, fronts: Tables) -> bool {
    begins(tables.groups, fronts.groups)
        && begins(tables.seats, fronts.seats)
        && begins(tables.reserves, fronts.reserves)
        && begins(tables.trainees, fronts.trainees)
        && begins(tables.contracts, fronts.contracts)
        && begins(tables.bars, fronts.bars)
}

fn put<T: Drop>(table: &mut [T], at: usize, entry: T) {
    if let Some(place) = table.get_mut(at) {
        *place = entry;
    }
}

impl HeapTables {
    // Tables of these sizes, full of old entries.
    pub fn old(heap: Global, sizes: Counts) -> Result<HeapTables, AllocError> {
        Ok(HeapTables {
            groups: vec![in heap; OLD_GROUP; sizes.groups]?,
            seats: vec![in heap; OLD_SEAT; sizes.seats]?,
            reserves: vec![in heap; OLD_RESERVATION; sizes.reserves]?,
            trainees: vec![in heap; OLD_TRAINEE; sizes.trainees]?,
            contracts: vec![in heap; OLD_CONTRACT; sizes.wishes]?,
            bars: vec![in heap; OLD_BARRING; sizes.bars]?,
        })
    }

    // Intake of a deck into these tables.
    pub fn take(&mut self, deck: &[u8]) -> Result<Counts, Refusal> {
        intake(
            deck,
            &mut TablesMut {
                groups: &mut self.groups,
                seats: &mut self.seats,
                reserves: &mut self.reserves,
                trainees: &mut self.trainees,
                contracts: &mut self.contracts,
                bars: &mut self.bars,
            },
        )
        .map_err(Refusal::from)
    }

    pub fn is_old(&self) -> bool {
        self.groups.iter().all(|entry| *entry == OLD_GROUP)
            && self.seats.iter().all(|entry| *entry == OLD_SEAT)
            && self.reserves.iter().all(|entry| *entry == OLD_RESERVATION)
            && self.trainees.iter().all(|entry| *entry == OLD_TRAINEE)
            && self.contracts.iter().all(|entry| *entry == OLD_CONTRACT)
            && self.bars.iter().all(|entry| *entry == OLD_BARRING)
    }

    // As of a book, but of tables on the heap, of any sizes.
    pub fn tables(&self) -> Tables<'_> {
        Tables {
            groups: &self.groups,
            seats: &self.seats,
            reserves: &self.reserves,
            trainees: &self.trainees,
            contracts: &self.contracts,
            bars: &self.bars,
        }
    }

    // Puts the byte 9, which stands for no rule, at a seat.
    pub fn unrule(&mut self, at: usize) {
        if let Some(seat) = self.seats.get_mut(at) {
            seat.rule = Err(UnknownRule(9));
        }
    }

    // Puts an old entry into one of the tables.
    pub fn mark(&mut self, table: Table, at: usize) {
        match table {
            Table::Groups => put(&mut self.groups, at, OLD_GROUP),
            Table::Seats => put(&mut self.seats, at, OLD_SEAT),
            Table::Reserves => put(&mut self.reserves, at, OLD_RESERVATION),
            Table::Trainees => put(&mut self.trainees, at, OLD_TRAINEE),
            Table::Contracts => put(&mut self.contracts, at, OLD_CONTRACT),
            Table::Bars => put(&mut self.bars, at, OLD_BARRING),
        }
    }
}
