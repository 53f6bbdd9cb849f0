// A queue and a stack: in which order they take, and what they refuse.
use line::line::Line;
use line::queue::Queue;
use line::stack::Stack;
use std::process::Abort;
use strip::row::{Full, Strip};

pub fn tells<L: Line>(rt: &impl Abort, line: &L, places: usize, count: usize) {
    assert_eq!(rt; line.places(), places);
    assert_eq!(rt; line.count(), count);
}

pub fn joined<L: Line>(rt: &impl Abort, line: &mut L, trainees: &[u16]) {
    for t in trainees {
        assert_eq!(rt; line.join(*t), Ok(()), "trainee {t}");
    }
}

// These are taken in this order, and then nobody waits.
pub fn taken<L: Line>(rt: &impl Abort, line: &mut L, trainees: &[u16]) {
    assert_eq!(rt; line.count(), trainees.len());
    for t in trainees {
        assert_eq!(rt; line.take(), Some(*t), "trainee {t}");
    }
    assert_eq!(rt; line.count(), 0);
    assert_eq!(rt; line.take(), None);
}

// Three places: 7 waits twice, and there is no place for 4.
fn filled<L: Line>(rt: &impl Abort, line: &mut L, round: u8) {
    assert_eq!(rt; line.places(), 3, "round {round}");
    assert_eq!(rt; line.count(), 0, "round {round}");
    assert_eq!(rt; line.take(), None, "round {round}");
    for t in &[7, 7, 65535] {
        assert_eq!(rt; line.join(*t), Ok(()), "trainee {t}, round {round}");
    }
    assert_eq!(rt; line.places(), 3, "round {round}");
    assert_eq!(rt; line.count(), 3, "round {round}");
    assert_eq!(rt; line.join(4), Err(Full::NoPlace), "round {round}");
    assert_eq!(rt; line.places(), 3, "round {round}");
    assert_eq!(rt; line.count(), 3, "round {round}");
}

#[test]
fn a_queue_takes_the_oldest(rt: HostRuntime) {
    let mut memory = [9; 3];
    let mut row = Strip::new(&mut memory);
    let mut line = Queue::new(&mut row);
    filled(&rt, &mut line, 1);
    assert_eq!(rt; line.take(), Some(7));
    joined(&rt, &mut line, &[0]);
    taken(&rt, &mut line, &[7, 65535, 0]);
    filled(&rt, &mut line, 2);
    taken(&rt, &mut line, &[7, 7, 65535]);
    tells(&rt, &line, 3, 0);
}

// The stack's own expected values.
#[test]
fn a_stack_takes_the_newest(rt: HostRuntime) {
    let mut memory = [9; 3];
    let mut row = Strip::new(&mut memory);
    let mut line = Stack::new(&mut row);
    filled(&rt, &mut line, 1);
    assert_eq!(rt; line.take(), Some(65535));
    joined(&rt, &mut line, &[0]);
    taken(&rt, &mut line, &[0, 7, 7]);
    filled(&rt, &mut line, 2);
    taken(&rt, &mut line, &[65535, 7, 7]);
    tells(&rt, &line, 3, 0);
}

// Those in the strip wait already; a line that is let go leaves them there.
#[test]
fn lines_on_one_strip(rt: HostRuntime) {
    let mut memory = [9; 4];
    let mut row = Strip::new(&mut memory);
    assert_eq!(rt; row.put(1), Ok(()));
    assert_eq!(rt; row.put(2), Ok(()));
    {
        let mut queue = Queue::new(&mut row);
        tells(&rt, &queue, 4, 2);
        joined(&rt, &mut queue, &[3, 4]);
        assert_eq!(rt; queue.take(), Some(1));
    }
    let mut stack = Stack::new(&mut row);
    tells(&rt, &stack, 4, 3);
    taken(&rt, &mut stack, &[4, 3, 2]);
}

#[test]
fn lines_tell_the_free_places(rt: HostRuntime) {
    let mut memory = [9; 4];
    let mut row = Strip::new(&mut memory);
    {
        let mut queue = Queue::new(&mut row);
        joined(&rt, &mut queue, &[3]);
        assert_eq!(rt; queue.free(), 3);
    }
    let mut stack = Stack::new(&mut row);
    joined(&rt, &mut stack, &[4, 5, 6]);
    assert_eq!(rt; stack.free(), 0);
}
