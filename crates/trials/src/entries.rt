// What intake leaves in the tables.
use crate::build::{NOTHING, Shape, built};
use crate::case::{Case, counts_of, refusal};
use crate::samples::{E_ALONE, NO_ENTRIES, P, Q};
use crate::tables::{HeapTables, LEAST, LONGER, hold};
use intake::counts::Counts;
use std::process::Abort;
use std::test::Fail;

// Each table in turn one entry short, and all without entries.
const SMALL: [[usize; 6]; 8] = [
    [63, 256, 64, 256, 2048, 128],
    [64, 255, 64, 256, 2048, 128],
    [64, 256, 63, 256, 2048, 128],
    [64, 256, 64, 255, 2048, 128],
    [64, 256, 64, 256, 2047, 128],
    [64, 256, 64, 256, 2048, 127],
    [65, 257, 65, 257, 2049, 127],
    [0, 0, 0, 0, 0, 0],
];

// Tables that are too small are told of first, and left as they were.
fn check_small(rt: &(impl Abort + AllocGlobal), what: &str, deck: &[u8]) -> Result<(), Fail> {
    for (i, sizes) in SMALL.iter().enumerate() {
        let mut tables = HeapTables::old(rt.alloc(), counts_of(*sizes))?;
        assert_eq!(rt; tables.take(deck), Err(refusal(1, 0)), "{what}, sizes {i}");
        assert!(rt; tables.is_old(), "{what}, sizes {i}");
    }
    Ok(())
}

#[test]
fn small_tables_stay(rt: HostRuntime) -> Result<(), Fail> {
    check_small(&rt, "accepted elsewhere", P.bytes)?;
    check_small(&rt, "no byte", b"")?;
    check_small(&rt, "no kind", b"X")?;
    let long = vec![in rt.alloc(); b'X'; 15364]?;
    check_small(&rt, "too long", &long)
}

// A group more than the most.
const MANY: Shape = Shape {
    groups: 65,
    ..NOTHING
};

// A deck for each question from 3 to 11 but 7, refused after it has filled some entries where it can.
const REFUSED: [Case; 10] = [
    Case(b"G\xff\x01\0HERON   T\0\0\0ADA     W\0\0\0\0B\0", 3, 31),
    Case(b"G\xff\x01\0HERON   S\0\0R\0\0\0T\0\0\0ADA     X", 4, 31),
    Case(b"G\xff\x01\0HERON   S\0\0R\0\0\0G", 5, 19),
    Case(b"G\xff\x01\0HERON   S\0\0R\0\0\0E", 6, 19),
    Case(b"G\xff\x01\0HERON   T\0\0\0ADA     W\0\0\0\0B\x01", 8, 29),
    Case(b"G\xff\x01\0HERON   T\0\0\0ADA     W\0\0\0\0B\0B\0", 9, 31),
    Case(
        b"G\xff\x01\0HERON   T\0\0\0ADA     W\0\0\0\0B\0E\x02\0",
        10,
        31,
    ),
    Case(
        b"G\xff\x01\0HERON   T\0\0\0ADA     W\0\0\0\0B\0E\x01\0E",
        11,
        34,
    ),
    Case(b"", 3, 0),
    Case(b"E\0\0\0", 11, 3),
];

// Every entry is blank after such a refusal.
fn check_blanked(rt: &(impl Abort + AllocGlobal), what: &str, sizes: Counts) -> Result<(), Fail> {
    for (i, case) in REFUSED.iter().enumerate() {
        let mut tables = HeapTables::old(rt.alloc(), sizes)?;
        assert_eq!(rt;
            tables.take(case.0),
            Err(case.refusal()),
            "{what}, case {i}"
        );
        assert!(rt; hold(tables.tables(), NO_ENTRIES), "{what}, case {i}");
    }
    Ok(())
}

#[test]
fn refused_decks_leave_blanks(rt: HostRuntime) -> Result<(), Fail> {
    let heap = rt.alloc();
    check_blanked(&rt, "least sizes", LEAST)?;
    check_blanked(&rt, "longer tables", LONGER)?;
    let mut tables = HeapTables::old(heap, LONGER)?;
    let long = vec![in heap; b'X'; 15364]?;
    assert_eq!(rt; tables.take(&long), Err(refusal(2, 0)));
    assert!(rt; hold(tables.tables(), NO_ENTRIES), "too long");
    let mut again = HeapTables::old(heap, LONGER)?;
    let many = built(heap, MANY)?;
    assert_eq!(rt; again.take(&many), Err(refusal(7, 768)));
    assert!(rt; hold(again.tables(), NO_ENTRIES), "too many groups");
    Ok(())
}

// Whatever the tables held before, only the deck's entries are there after.
fn check_filled(rt: &(impl Abort + AllocGlobal), what: &str, sizes: Counts) -> Result<(), Fail> {
    let mut tables = HeapTables::old(rt.alloc(), sizes)?;
    for (i, sample) in [P, Q, P, E_ALONE].iter().enumerate() {
        assert_eq!(rt;
            tables.take(sample.bytes),
            Ok(sample.counts),
            "{what}, deck {i}"
        );
        assert!(rt; hold(tables.tables(), sample.tables), "{what}, deck {i}");
    }
    Ok(())
}

#[test]
fn accepted_decks_fill(rt: HostRuntime) -> Result<(), Fail> {
    check_filled(&rt, "least sizes", LEAST)?;
    check_filled(&rt, "longer tables", LONGER)
}

// A lent seat may have a byte that stands for no rule. It is blanked with the rest, whether the deck is refused or taken.
#[test]
fn seats_without_a_rule_are_blanked(rt: HostRuntime) -> Result<(), Fail> {
    let mut tables = HeapTables::old(rt.alloc(), LEAST)?;
    tables.unrule(0);
    tables.unrule(255);
    assert_eq!(rt; tables.take(b""), Err(refusal(3, 0)));
    assert!(rt; hold(tables.tables(), NO_ENTRIES), "refused");
    tables.unrule(0);
    tables.unrule(255);
    assert_eq!(rt; tables.take(Q.bytes), Ok(Q.counts));
    assert!(rt; hold(tables.tables(), Q.tables), "taken");
    Ok(())
}
