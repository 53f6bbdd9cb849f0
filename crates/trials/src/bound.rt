// Binding decks into a place.
use crate::case::{counts_of, refusal};
use crate::samples::{E_ALONE, P, Q, Sample};
use crate::tables::{EACH_TABLE, HeapTables, LEAST, LONGER};
use deck::deck::Deck;
use intake::counts::Counts;
use std::fmt;
use std::process::Abort;
use std::test::Fail;

// Tables of these sizes that a sample was taken into.
fn filled(
    rt: &(impl Abort + AllocGlobal),
    sizes: Counts,
    sample: Sample,
) -> Result<HeapTables, Fail> {
    let mut tables = HeapTables::old(rt.alloc(), sizes)?;
    assert_eq!(rt; tables.take(sample.bytes), Ok(sample.counts));
    Ok(tables)
}

// A place holds E alone first, and then what was bound last.
#[test]
fn bound_decks_are_read(rt: HostRuntime) -> Result<(), Fail> {
    let p_tables = filled(&rt, LEAST, P)?;
    let q_tables = filled(&rt, LONGER, Q)?;
    let p = Sample {
        tables: p_tables.tables(),
        ..P
    };
    let q = Sample {
        tables: q_tables.tables(),
        ..Q
    };
    let mut place = Deck::empty();
    assert!(rt; E_ALONE.is_in(place));
    assert_eq!(rt; p.bind(&mut place), Ok(()));
    assert!(rt; P.is_in(place));
    assert_eq!(rt; q.bind(&mut place), Ok(()));
    assert!(rt; Q.is_in(place));
    Ok(())
}

// What is offered to a place that has P is refused, and the place keeps P.
fn check_unbound<'a>(
    rt: &impl Abort,
    what: impl fmt::Display + Drop,
    own: &'a HeapTables,
    offer: Sample<'a>,
) {
    let p = Sample {
        tables: own.tables(),
        ..P
    };
    let mut place = Deck::empty();
    assert_eq!(rt; p.bind(&mut place), Ok(()), "{what}");
    assert_eq!(rt; offer.bind(&mut place), Err(refusal(12, 0)), "{what}");
    assert_eq!(rt; place.groups().len(), 3, "{what}");
    assert!(rt; P.is_in(place), "{what}");
}

// The same of tables that are offered with Q's bytes and counts.
fn check_tables(
    rt: &impl Abort,
    what: impl fmt::Display + Drop,
    own: &HeapTables,
    tables: &HeapTables,
) {
    let offer = Sample {
        tables: tables.tables(),
        ..Q
    };
    check_unbound(rt, what, own, offer);
}

// Entry 0 is an entry of Q in every table, 2 in all but the reserves and 3 in the groups alone; 4 and 63 are blank in every table.
#[test]
fn changed_entries_are_not_bound(rt: HostRuntime) -> Result<(), Fail> {
    let own = filled(&rt, LEAST, P)?;
    for at in [0, 2, 3, 4, 63] {
        for table in EACH_TABLE {
            let mut marked = filled(&rt, LEAST, Q)?;
            marked.mark(table, at);
            check_tables(&rt, format_args!("entry {at} of {table:?}"), &own, &marked);
        }
    }
    Ok(())
}

// A seat's byte may stand for no rule. Seats 0 and 2 are Q's, 3 and 255 are blank.
#[test]
fn seats_without_a_rule_are_not_bound(rt: HostRuntime) -> Result<(), Fail> {
    let own = filled(&rt, LEAST, P)?;
    for at in [0, 2, 3, 255] {
        let mut marked = filled(&rt, LEAST, Q)?;
        marked.unrule(at);
        check_tables(&rt, format_args!("seat {at}"), &own, &marked);
    }
    Ok(())
}

// Q's counts are 4, 3, 2, 3, 3, 3.
const OTHER_COUNTS: [[usize; 6]; 13] = [
    [3, 3, 2, 3, 3, 3],
    [5, 3, 2, 3, 3, 3],
    [4, 2, 2, 3, 3, 3],
    [4, 4, 2, 3, 3, 3],
    [4, 3, 1, 3, 3, 3],
    [4, 3, 3, 3, 3, 3],
    [4, 3, 2, 2, 3, 3],
    [4, 3, 2, 4, 3, 3],
    [4, 3, 2, 3, 2, 3],
    [4, 3, 2, 3, 4, 3],
    [4, 3, 2, 3, 3, 2],
    [4, 3, 2, 3, 3, 4],
    [0, 0, 0, 0, 0, 0],
];

#[test]
fn changed_counts_are_not_bound(rt: HostRuntime) -> Result<(), Fail> {
    let own = filled(&rt, LEAST, P)?;
    let q_tables = filled(&rt, LEAST, Q)?;
    for (i, row) in OTHER_COUNTS.iter().enumerate() {
        let offer = Sample {
            tables: q_tables.tables(),
            counts: counts_of(*row),
            ..Q
        };
        check_unbound(&rt, format_args!("counts {i}"), &own, offer);
    }
    Ok(())
}

// The same of bytes that are offered with tables and Q's counts.
fn check_bytes(rt: &impl Abort, what: &str, own: &HeapTables, bytes: &[u8], tables: &HeapTables) {
    let offer = Sample {
        bytes,
        tables: tables.tables(),
        ..Q
    };
    check_unbound(rt, what, own, offer);
}

// Bytes of another deck, and bytes that intake refuses.
#[test]
fn other_bytes_are_not_bound(rt: HostRuntime) -> Result<(), Fail> {
    let own = filled(&rt, LEAST, P)?;
    let mut other = filled(&rt, LEAST, Q)?;
    let mut longer = Vec::from_slice(rt.alloc(), Q.bytes)?;
    longer.push(0)?;
    check_bytes(&rt, "P", &own, P.bytes, &other);
    check_bytes(&rt, "E alone", &own, E_ALONE.bytes, &other);
    check_bytes(&rt, "Q and a byte", &own, &longer, &other);
    assert_eq!(rt; other.take(b"X"), Err(refusal(4, 0)));
    let offer = Sample {
        bytes: b"X",
        tables: other.tables(),
        counts: Counts::default(),
    };
    check_unbound(&rt, "blank tables of a refused deck", &own, offer);
    Ok(())
}

// A table that intake refuses as too small, though Q's entries are in it.
#[test]
fn small_tables_are_not_bound(rt: HostRuntime) -> Result<(), Fail> {
    let own = filled(&rt, LEAST, P)?;
    let mut few_groups = filled(&rt, LEAST, Q)?;
    let _ = few_groups.groups.pop();
    check_tables(&rt, "63 groups", &own, &few_groups);
    let mut few_bars = filled(&rt, LEAST, Q)?;
    let _ = few_bars.bars.pop();
    check_tables(&rt, "127 bars", &own, &few_bars);
    Ok(())
}

// A place that held nothing but E alone keeps that.
#[test]
fn an_empty_place_stays(rt: HostRuntime) -> Result<(), Fail> {
    let old = HeapTables::old(rt.alloc(), LEAST)?;
    let offer = Sample {
        tables: old.tables(),
        ..Q
    };
    let mut place = Deck::empty();
    assert_eq!(rt; offer.bind(&mut place), Err(refusal(12, 0)));
    assert!(rt; E_ALONE.is_in(place));
    Ok(())
}
