// Many moves of a strip beside a plain list of what it should hold.
use crate::sample::{Elements, Sample};
use line::log::TurnedDown;
use std::alloc::Global;
use std::fmt::Debug;
use std::process::Abort;
use std::test::Fail;
use strip::row::{Full, Strip};

// Where a trial stands: what the strip has, how many places, and which turn it is.
#[derive(Clone, Copy, Debug)]
struct Stage {
    elements: Elements,
    places: usize,
    turn: usize,
}

// After a turn the strip tells just what the list has, and reads none past its end.
fn agree<'a, T: Copy + PartialEq + Debug + Drop>(
    rt: &impl Abort,
    strip: &Strip<'a, T>,
    list: &[T],
    at: Stage,
) {
    assert_eq!(rt; strip.places(), at.places, "after {at:?}");
    assert_eq!(rt; strip.count(), list.len(), "after {at:?}");
    assert_eq!(rt;
        Some(strip.free()),
        at.places.checked_sub(list.len()),
        "after {at:?}"
    );
    for (k, item) in list.iter().enumerate() {
        assert_eq!(rt; strip.read(k), Some(*item), "number {k} after {at:?}");
    }
    assert_eq!(rt; strip.read(list.len()), None, "one past, after {at:?}");
}

fn put<'a, T: Copy + PartialEq + Debug + Drop>(
    rt: &impl Abort,
    strip: &mut Strip<'a, T>,
    list: &mut Vec<T>,
    at: Stage,
    item: T,
) -> Result<(), Fail> {
    if list.len() >= at.places {
        assert_eq!(rt; strip.put(item), Err(Full::NoPlace), "{at:?}");
        return Ok(());
    }
    list.push(item)?;
    assert_eq!(rt; strip.put(item), Ok(()), "{at:?}");
    Ok(())
}

fn oldest<T>(list: &mut Vec<T>) -> Option<T> {
    if list.is_empty() {
        None
    } else {
        Some(list.remove(0))
    }
}

// The move that a byte stands for: half of the bytes put, a quarter take the oldest and a quarter the newest.
fn turn<'a, T: Sample + Copy + PartialEq + Debug + Drop>(
    rt: &impl Abort,
    strip: &mut Strip<'a, T>,
    list: &mut Vec<T>,
    at: Stage,
    x: u8,
) -> Result<(), Fail> {
    match x / 64 {
        0 | 1 => put(rt, strip, list, at, T::of(x)),
        2 => {
            assert_eq!(rt; strip.take_oldest(), oldest(list), "the oldest, {at:?}");
            Ok(())
        },
        _ => {
            assert_eq!(rt; strip.take_newest(), list.pop(), "the newest, {at:?}");
            Ok(())
        },
    }
}

// Goes through each byte once, in an order that fills the strip and empties it many times.
fn follows<T: Sample + Copy + Clone + PartialEq + Debug + Drop>(
    rt: &impl Abort,
    heap: Global,
    places: usize,
) -> Result<(), Fail> {
    let mut memory = vec![in heap; T::of(0); places]?;
    let mut strip = Strip::new(&mut memory);
    let mut list = Vec::new(heap);
    let mut x: u8 = 0;
    // The number itself goes into the move.
    for i in 0..256 {
        let at = Stage {
            elements: T::ELEMENTS,
            places,
            turn: i,
        };
        x = x.wrapping_mul(5).wrapping_add(3);
        turn(rt, &mut strip, &mut list, at, x)?;
        agree(rt, &strip, &list, at);
    }
    Ok(())
}

fn all_follow<T: Sample + Copy + Clone + PartialEq + Debug + Drop>(
    rt: &impl Abort,
    heap: Global,
) -> Result<(), Fail> {
    for places in [0, 1, 2, 7] {
        follows::<T>(rt, heap, places)?;
    }
    Ok(())
}

#[test]
fn strips_follow_a_list(rt: HostRuntime) -> Result<(), Fail> {
    all_follow::<u8>(&rt, rt.alloc())?;
    all_follow::<u16>(&rt, rt.alloc())?;
    all_follow::<TurnedDown>(&rt, rt.alloc())
}
