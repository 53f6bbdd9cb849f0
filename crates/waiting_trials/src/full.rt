// What a strip refuses, and what it answers none to.
use std::process::Abort;
use strip::row::{Full, Strip};

// The strip holds just these, from the oldest on, and has this many places free.
pub fn holds<'a>(rt: &impl Abort, strip: &Strip<'a, u8>, items: &[u8], free: usize) {
    assert_eq!(rt; strip.count(), items.len());
    assert_eq!(rt; strip.free(), free);
    for (k, item) in items.iter().enumerate() {
        assert_eq!(rt; strip.read(k), Some(*item), "number {k}");
    }
    assert_eq!(rt; strip.read(items.len()), None);
    assert_eq!(rt; strip.read(usize::MAX), None);
}

pub fn put_all<'a>(rt: &impl Abort, strip: &mut Strip<'a, u8>, items: &[u8]) {
    for item in items {
        assert_eq!(rt; strip.put(*item), Ok(()), "item {item}");
    }
}

// What the memory held before is no element.
#[test]
fn an_empty_strip_answers_none(rt: HostRuntime) {
    let mut memory = [9; 3];
    let mut strip = Strip::new(&mut memory);
    assert_eq!(rt; strip.places(), 3);
    holds(&rt, &strip, &[], 3);
    assert_eq!(rt; strip.take_oldest(), None);
    assert_eq!(rt; strip.take_newest(), None);
    holds(&rt, &strip, &[], 3);
}

#[test]
fn a_full_strip_keeps_all(rt: HostRuntime) {
    let mut memory = [9; 3];
    let mut strip = Strip::new(&mut memory);
    put_all(&rt, &mut strip, &[5, 6, 5]);
    holds(&rt, &strip, &[5, 6, 5], 0);
    assert_eq!(rt; strip.put(7), Err(Full::NoPlace));
    holds(&rt, &strip, &[5, 6, 5], 0);
    assert_eq!(rt; strip.take_oldest(), Some(5));
    put_all(&rt, &mut strip, &[7]);
    assert_eq!(rt; strip.put(8), Err(Full::NoPlace));
    holds(&rt, &strip, &[6, 5, 7], 0);
    assert_eq!(rt; strip.take_newest(), Some(7));
    holds(&rt, &strip, &[6, 5], 1);
}

// Without memory there is no place, and nothing is ever in it.
#[test]
fn a_strip_without_places(rt: HostRuntime) {
    let mut memory = [9; 0];
    let mut strip = Strip::new(&mut memory);
    assert_eq!(rt; strip.places(), 0);
    assert_eq!(rt; strip.put(5), Err(Full::NoPlace));
    holds(&rt, &strip, &[], 0);
    assert_eq!(rt; strip.take_oldest(), None);
    assert_eq!(rt; strip.take_newest(), None);
}
