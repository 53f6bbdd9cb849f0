// Freed places are used again, round after round.
use crate::full::{holds, put_all};
use std::process::Abort;
use strip::row::{Full, Strip};

// Goes on from a full strip whose oldest is 0 and which counts up: the oldest is taken, and a number takes its place. The numbers are what is put and taken.
fn go_round<'a>(rt: &impl Abort, strip: &mut Strip<'a, u8>, places: u8) {
    for i in 0..=255 {
        assert_eq!(rt; strip.put(99), Err(Full::NoPlace), "round {i}");
        assert_eq!(rt; strip.take_oldest(), Some(i), "round {i}");
        assert_eq!(rt; strip.put(places.wrapping_add(i)), Ok(()), "round {i}");
    }
}

// The newest is put and taken at each place of the memory. The numbers are what is put and taken.
fn go_back<'a>(rt: &impl Abort, strip: &mut Strip<'a, u8>) {
    for i in 0..=255 {
        assert_eq!(rt; strip.put(i), Ok(()), "round {i}");
        assert_eq!(rt; strip.put(7), Ok(()), "round {i}");
        assert_eq!(rt; strip.take_newest(), Some(7), "round {i}");
        assert_eq!(rt; strip.take_oldest(), Some(i), "round {i}");
        assert_eq!(rt; strip.take_newest(), None, "round {i}");
    }
}

#[test]
fn two_places_go_round(rt: HostRuntime) {
    let mut memory = [9; 2];
    let mut strip = Strip::new(&mut memory);
    go_back(&rt, &mut strip);
    put_all(&rt, &mut strip, &[0, 1]);
    go_round(&rt, &mut strip, 2);
    holds(&rt, &strip, &[0, 1], 0);
}

// 256 rounds end in the middle of the memory.
#[test]
fn seven_places_go_round(rt: HostRuntime) {
    let mut memory = [9; 7];
    let mut strip = Strip::new(&mut memory);
    go_back(&rt, &mut strip);
    put_all(&rt, &mut strip, &[0, 1, 2, 3, 4, 5, 6]);
    go_round(&rt, &mut strip, 7);
    holds(&rt, &strip, &[0, 1, 2, 3, 4, 5, 6], 0);
}
