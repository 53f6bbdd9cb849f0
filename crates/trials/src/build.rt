// Large decks, written by loops.
use std::alloc::{AllocError, Global};
use std::ops::Range;

// How many records of each kind a deck has; wishes and bars are those of each trainee.
#[derive(Clone, Copy)]
pub struct Shape {
    pub groups: u8,
    pub seats: u16,
    pub reserves: u8,
    pub trainees: u16,
    pub wishes: u8,
    pub bars: u8,
}

pub const NOTHING: Shape = Shape {
    groups: 0,
    seats: 0,
    reserves: 0,
    trainees: 0,
    wishes: 0,
    bars: 0,
};

// Groups without parent.
fn add_groups(deck: &mut Vec<u8>, n: u8) -> Result<(), AllocError> {
    for _ in 0..n {
        deck.extend_from_slice(b"G\xff\x01\0GROUP   ")?;
    }
    Ok(())
}

fn add_seats(deck: &mut Vec<u8>, n: u16) -> Result<(), AllocError> {
    for i in 0..n {
        deck.extend_from_slice(&[b'S', (i % 64) as u8, (i % 3) as u8])?;
    }
    Ok(())
}

fn add_reserves(deck: &mut Vec<u8>, n: u8) -> Result<(), AllocError> {
    for i in 0..n {
        deck.extend_from_slice(&[b'R', i, i, 1])?;
    }
    Ok(())
}

fn add_wishes(deck: &mut Vec<u8>, n: u8) -> Result<(), AllocError> {
    for i in 0..n {
        deck.extend_from_slice(&[b'W', i, i, 0, i % 10])?;
    }
    Ok(())
}

fn add_bars(deck: &mut Vec<u8>, n: u8) -> Result<(), AllocError> {
    for i in 0..n {
        deck.extend_from_slice(&[b'B', i])?;
    }
    Ok(())
}

// Trainees with these lots, each with so many wishes, and then so many bars; those with an odd lot have a flag.
fn add_trainees(
    deck: &mut Vec<u8>,
    lots: Range<u16>,
    wishes: u8,
    bars: u8,
) -> Result<(), AllocError> {
    for lot in lots {
        let [low, high] = lot.to_le_bytes();
        deck.extend_from_slice(&[b'T', low, high, low % 2])?;
        deck.extend_from_slice(b"TRAINEE ")?;
        add_wishes(deck, wishes)?;
        add_bars(deck, bars)?;
    }
    Ok(())
}

// A deck without E.
pub fn built(heap: Global, shape: Shape) -> Result<Vec<u8>, AllocError> {
    let mut deck = Vec::new(heap);
    add_groups(&mut deck, shape.groups)?;
    add_seats(&mut deck, shape.seats)?;
    add_reserves(&mut deck, shape.reserves)?;
    add_trainees(&mut deck, 0..shape.trainees, shape.wishes, shape.bars)?;
    Ok(deck)
}

// The largest deck without E: each kind at its most, eight wishes for each trainee, and one bar for each of the first 128.
pub fn largest(heap: Global) -> Result<Vec<u8>, AllocError> {
    let mut deck = built(
        heap,
        Shape {
            groups: 64,
            seats: 256,
            reserves: 64,
            trainees: 128,
            wishes: 8,
            bars: 1,
        },
    )?;
    add_trainees(&mut deck, 128..256, 8, 0)?;
    Ok(deck)
}
