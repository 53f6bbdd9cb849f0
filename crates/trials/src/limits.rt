// Decks with as many records of a kind as there may be, and one more. Each list of cases has the ends of decks of one shape.
use crate::build::{NOTHING, Shape, built, largest};
use crate::case::{Case, counts_of, judged, refusal};
use crate::tables::{HeapTables, LEAST};
use rules::table::{Barring, Contract, Group, Reservation, Rule, Seat, Trainee};
use std::process::Abort;
use std::test::Fail;

// 768 bytes.
const GROUPS: Shape = Shape {
    groups: 64,
    ..NOTHING
};

// A 65th group, one with a bad parent and a bad name, and one that is cut.
const GROUP_ENDS: [Case; 3] = [
    Case(b"G\xff\x01\0HERON   E\0\0", 7, 768),
    Case(b"G\x63\0\0\0\0\0\0\0\0\0\0", 7, 768),
    Case(b"G\xff\x01\0HERON  ", 6, 768),
];

// 768 + 768 = 1536 bytes.
const SEATS: Shape = Shape {
    groups: 64,
    seats: 256,
    ..NOTHING
};

// A 257th seat, one at no dredger and with a bad rule, one that is cut, and one that is misplaced, as is a 65th group.
const SEAT_ENDS: [Case; 5] = [
    Case(b"S\0\0E\0\0", 7, 1536),
    Case(b"S\x40\x03", 7, 1536),
    Case(b"S\0", 6, 1536),
    Case(b"R\0\0\0S\0\0", 5, 1540),
    Case(b"G\xff\x01\0HERON   ", 5, 1536),
];

// 768 + 256 = 1024 bytes.
const RESERVES: Shape = Shape {
    groups: 64,
    reserves: 64,
    ..NOTHING
};

// A 65th reserve always repeats one, or is at no dredger; then one that is cut, and one that is misplaced.
const RESERVE_ENDS: [Case; 4] = [
    Case(b"R\0\0\0E\0\0", 7, 1024),
    Case(b"R\x40\0\0E\0\0", 7, 1024),
    Case(b"R\0\0", 6, 1024),
    Case(b"T\0\0\0CAI     R\0\0\0", 5, 1036),
];

// 3072 bytes.
const TRAINEES: Shape = Shape {
    trainees: 256,
    ..NOTHING
};

// A 257th trainee, one with the lot of another, one with a bad flag, and one that is cut.
const TRAINEE_ENDS: [Case; 4] = [
    Case(b"T\xff\xff\0CAI     E\0\0", 7, 3072),
    Case(b"T\0\0\0CAI     ", 7, 3072),
    Case(b"T\xff\xff\x02CAI     ", 7, 3072),
    Case(b"T\0\0\0CAI    ", 6, 3072),
];

// 768 + 32 * (12 + 64 * 5) = 11392 bytes.
const WISHES: Shape = Shape {
    groups: 64,
    trainees: 32,
    wishes: 64,
    ..NOTHING
};

// A 2049th wish, one that repeats another, one for no group and with a bad term, and one that is cut.
const WISH_ENDS: [Case; 4] = [
    Case(b"T\xff\xff\0CAI     W\0\0\0\0E\x01\x08", 7, 11404),
    Case(b"W\0\0\0\0", 7, 11392),
    Case(b"W\x40\0\0\x0a", 7, 11392),
    Case(b"W\0\0\0", 6, 11392),
];

// 768 + 2 * (12 + 64 * 2) = 1048 bytes.
const BARS: Shape = Shape {
    groups: 64,
    trainees: 2,
    bars: 64,
    ..NOTHING
};

// A 129th bar, one that repeats another, one at no dredger, and one that is cut.
const BAR_ENDS: [Case; 4] = [
    Case(b"T\xff\xff\0CAI     B\0E\0\0", 7, 1060),
    Case(b"B\0", 7, 1048),
    Case(b"B\xff", 7, 1048),
    Case(b"B", 6, 1048),
];

fn ends_refused(
    rt: &(impl Abort + AllocGlobal),
    what: &str,
    shape: Shape,
    ends: &[Case],
) -> Result<(), Fail> {
    for (i, end) in ends.iter().enumerate() {
        let mut deck = built(rt.alloc(), shape)?;
        deck.extend_from_slice(end.0)?;
        assert_eq!(rt; judged(&deck), Err(end.refusal()), "{what}, end {i}");
    }
    Ok(())
}

#[test]
fn one_more_than_the_most(rt: HostRuntime) -> Result<(), Fail> {
    ends_refused(&rt, "groups", GROUPS, &GROUP_ENDS)?;
    ends_refused(&rt, "seats", SEATS, &SEAT_ENDS)?;
    ends_refused(&rt, "reserves", RESERVES, &RESERVE_ENDS)?;
    ends_refused(&rt, "trainees", TRAINEES, &TRAINEE_ENDS)?;
    ends_refused(&rt, "wishes", WISHES, &WISH_ENDS)?;
    ends_refused(&rt, "bars", BARS, &BAR_ENDS)
}

// A shape, the E that closes its deck, and the counts.
#[derive(Clone, Copy)]
struct Most(Shape, &'static [u8], [usize; 6]);

const MOST: [Most; 6] = [
    Most(GROUPS, b"E\0\0", [64, 0, 0, 0, 0, 0]),
    Most(SEATS, b"E\0\0", [64, 256, 0, 0, 0, 0]),
    Most(RESERVES, b"E\0\0", [64, 0, 64, 0, 0, 0]),
    Most(TRAINEES, b"E\0\0", [0, 0, 0, 256, 0, 0]),
    Most(WISHES, b"E\0\x08", [64, 0, 0, 32, 2048, 0]),
    Most(BARS, b"E\0\0", [64, 0, 0, 2, 0, 128]),
];

#[test]
fn exactly_the_most(rt: HostRuntime) -> Result<(), Fail> {
    for (i, most) in MOST.iter().enumerate() {
        let mut deck = built(rt.alloc(), most.0)?;
        deck.extend_from_slice(most.1)?;
        assert_eq!(rt; judged(&deck), Ok(counts_of(most.2)), "case {i}");
    }
    Ok(())
}

// The last entry of each table, after the largest deck.
fn check_lasts(rt: &impl Abort, tables: &HeapTables) {
    let group = Group {
        parent: None,
        capacity: 1,
        name: 760,
        dredger: 63,
    };
    assert_eq!(rt; tables.groups.last().copied(), Some(group));
    let seat = Seat {
        dredger: 63,
        rule: Ok(Rule::Rank),
    };
    assert_eq!(rt; tables.seats.last().copied(), Some(seat));
    let reserve = Reservation {
        dredger: 63,
        seats: 319,
    };
    assert_eq!(rt; tables.reserves.last().copied(), Some(reserve));
    let trainee = Trainee {
        lot: 255,
        flag: true,
        name: 15312,
    };
    assert_eq!(rt; tables.trainees.last().copied(), Some(trainee));
    let contract = Contract {
        trainee: 255,
        group: 7,
        dredger: 7,
        points: 7,
        term: 7,
        lot: 255,
        flag: true,
    };
    assert_eq!(rt; tables.contracts.last().copied(), Some(contract));
    let bar = Barring {
        trainee: 127,
        dredger: 0,
    };
    assert_eq!(rt; tables.bars.last().copied(), Some(bar));
}

#[test]
fn largest_deck(rt: HostRuntime) -> Result<(), Fail> {
    let mut deck = largest(rt.alloc())?;
    deck.extend_from_slice(b"E\0\x08")?;
    assert_eq!(rt; deck.len(), 15363);
    let mut tables = HeapTables::old(rt.alloc(), LEAST)?;
    assert_eq!(rt; tables.take(&deck), Ok(LEAST));
    check_lasts(&rt, &tables);
    deck.push(0)?;
    assert_eq!(rt; tables.take(&deck), Err(refusal(2, 0)));
    Ok(())
}

// After 15360 bytes, all that E leaves. What makes more than 15363 bytes of them is too long.
const LARGEST_ENDS: [Case; 11] = [
    Case(b"", 3, 15360),
    Case(b"X", 4, 15360),
    Case(b"G", 5, 15360),
    Case(b"T\0\0", 6, 15360),
    Case(b"T\0\0\0", 2, 0),
    Case(b"B\0", 7, 15360),
    Case(b"B\0\0\0", 2, 0),
    Case(b"E\0\0", 10, 15360),
    Case(b"E\0\0\0", 2, 0),
    Case(b"E\0\x08\0", 2, 0),
    Case(b"E\0\x08E\0\x08", 2, 0),
];

#[test]
fn ends_of_the_largest(rt: HostRuntime) -> Result<(), Fail> {
    let front = largest(rt.alloc())?;
    for (i, end) in LARGEST_ENDS.iter().enumerate() {
        let mut deck = front.clone()?;
        deck.extend_from_slice(end.0)?;
        assert_eq!(rt; judged(&deck), Err(end.refusal()), "end {i}");
    }
    Ok(())
}
