// Two small decks and the one of E alone, with where the records of the two begin.
use deck::deck::Deck;
use format::fault::Refusal;
use intake::counts::Counts;
use rules::table::{Barring, Contract, Group, Reservation, Rule, Seat, Tables, Trainee};

// A deck's bytes, with tables and counts that may be its own.
#[derive(Clone, Copy)]
pub struct Sample<'a> {
    pub bytes: &'a [u8],
    pub tables: Tables<'a>,
    pub counts: Counts,
}

impl<'a> Sample<'a> {
    // Binds it into a place.
    pub fn bind(self, place: &mut Deck<'a>) -> Result<(), Refusal> {
        place
            .bind(self.bytes, self.tables, self.counts)
            .map_err(Refusal::from)
    }

    // Whether a place has its bytes and entries.
    pub fn is_in(self, place: Deck) -> bool {
        place.bytes() == self.bytes
            && Tables {
                groups: place.groups(),
                seats: place.seats(),
                reserves: place.reserves(),
                trainees: place.trainees(),
                contracts: place.contracts(),
                bars: place.bars(),
            } == self.tables
    }
}

// Written out, since a constant calls no function.
pub const NO_ENTRIES: Tables<'static> = Tables {
    groups: &[],
    seats: &[],
    reserves: &[],
    trainees: &[],
    contracts: &[],
    bars: &[],
};

pub const E_ALONE: Sample<'static> = Sample {
    bytes: b"E\0\0",
    tables: NO_ENTRIES,
    counts: Counts {
        groups: 0,
        seats: 0,
        reserves: 0,
        trainees: 0,
        wishes: 0,
        bars: 0,
    },
};

// Deck P of the rules: three groups, three trainees with two wishes each.
pub const P: Sample<'static> = Sample {
    bytes: b"G\xff\x02\0HERON   \
    G\0\x01\0ENGINE  \
    G\xff\x01\0TERN    \
    T\x03\0\0ADA     \
    W\x01\x32\0\0\
    W\x02\x46\0\0\
    T\x01\0\x01BEN     \
    W\x01\x3c\0\0\
    W\x02\x28\0\0\
    T\x02\0\0CAI     \
    W\x02\x3c\0\0\
    W\0\x1e\0\0\
    E\x06\0",
    tables: Tables {
        groups: &[
            Group {
                parent: None,
                capacity: 2,
                name: 4,
                dredger: 0,
            },
            Group {
                parent: Some(0),
                capacity: 1,
                name: 16,
                dredger: 0,
            },
            Group {
                parent: None,
                capacity: 1,
                name: 28,
                dredger: 2,
            },
        ],
        seats: &[],
        reserves: &[],
        trainees: &[
            Trainee {
                lot: 3,
                flag: false,
                name: 40,
            },
            Trainee {
                lot: 1,
                flag: true,
                name: 62,
            },
            Trainee {
                lot: 2,
                flag: false,
                name: 84,
            },
        ],
        contracts: &[
            Contract {
                trainee: 0,
                group: 1,
                dredger: 0,
                points: 50,
                term: 0,
                lot: 3,
                flag: false,
            },
            Contract {
                trainee: 0,
                group: 2,
                dredger: 2,
                points: 70,
                term: 0,
                lot: 3,
                flag: false,
            },
            Contract {
                trainee: 1,
                group: 1,
                dredger: 0,
                points: 60,
                term: 0,
                lot: 1,
                flag: true,
            },
            Contract {
                trainee: 1,
                group: 2,
                dredger: 2,
                points: 40,
                term: 0,
                lot: 1,
                flag: true,
            },
            Contract {
                trainee: 2,
                group: 2,
                dredger: 2,
                points: 60,
                term: 0,
                lot: 2,
                flag: false,
            },
            Contract {
                trainee: 2,
                group: 0,
                dredger: 0,
                points: 30,
                term: 0,
                lot: 2,
                flag: false,
            },
        ],
        bars: &[],
    },
    counts: Counts {
        groups: 3,
        seats: 0,
        reserves: 0,
        trainees: 3,
        wishes: 6,
        bars: 0,
    },
};

pub const P_STARTS: [usize; 13] = [0, 12, 24, 36, 48, 53, 58, 70, 75, 80, 92, 97, 102];

// Records of every kind, two of each at least, and fields at both ends of their ranges.
pub const Q: Sample<'static> = Sample {
    bytes: b"G\xff\x02\0HERON   \
    G\0\x01\0ENGINE  \
    G\xff\xff\xffTERN~~~~\
    G\x01\0\0        \
    S\0\x01\
    S\x02\0\
    S\0\x02\
    R\x02\0\x01\
    R\0\x03\0\
    T\x01\x02\x01ADA     \
    B\x02\
    W\x03\xff\xff\x09\
    W\x02\0\0\0\
    B\0\
    T\0\0\0BEN     \
    T\xff\xff\0CAI     \
    W\0\x2c\x01\x05\
    B\0\
    E\x03\0",
    tables: Tables {
        groups: &[
            Group {
                parent: None,
                capacity: 2,
                name: 4,
                dredger: 0,
            },
            Group {
                parent: Some(0),
                capacity: 1,
                name: 16,
                dredger: 0,
            },
            Group {
                parent: None,
                capacity: 65535,
                name: 28,
                dredger: 2,
            },
            Group {
                parent: Some(1),
                capacity: 0,
                name: 40,
                dredger: 0,
            },
        ],
        seats: &[
            Seat {
                dredger: 0,
                rule: Ok(Rule::Lot),
            },
            Seat {
                dredger: 2,
                rule: Ok(Rule::Rank),
            },
            Seat {
                dredger: 0,
                rule: Ok(Rule::Term),
            },
        ],
        reserves: &[
            Reservation {
                dredger: 2,
                seats: 256,
            },
            Reservation {
                dredger: 0,
                seats: 3,
            },
        ],
        trainees: &[
            Trainee {
                lot: 513,
                flag: true,
                name: 69,
            },
            Trainee {
                lot: 0,
                flag: false,
                name: 95,
            },
            Trainee {
                lot: 65535,
                flag: false,
                name: 107,
            },
        ],
        contracts: &[
            Contract {
                trainee: 0,
                group: 3,
                dredger: 0,
                points: 65535,
                term: 9,
                lot: 513,
                flag: true,
            },
            Contract {
                trainee: 0,
                group: 2,
                dredger: 2,
                points: 0,
                term: 0,
                lot: 513,
                flag: true,
            },
            Contract {
                trainee: 2,
                group: 0,
                dredger: 0,
                points: 300,
                term: 5,
                lot: 65535,
                flag: false,
            },
        ],
        bars: &[
            Barring {
                trainee: 0,
                dredger: 2,
            },
            Barring {
                trainee: 0,
                dredger: 0,
            },
            Barring {
                trainee: 2,
                dredger: 0,
            },
        ],
    },
    counts: Counts {
        groups: 4,
        seats: 3,
        reserves: 2,
        trainees: 3,
        wishes: 3,
        bars: 3,
    },
};

pub const Q_STARTS: [usize; 19] = [
    0, 12, 24, 36, 48, 51, 54, 57, 61, 65, 77, 79, 84, 89, 91, 103, 115, 120, 122,
];
