// Whole lines at a time: all join, and all are taken.
use crate::lines::{joined, taken, tells};
use line::all::{drain, join_all};
use line::line::Line;
use line::queue::Queue;
use line::stack::Stack;
use std::process::Abort;
use strip::row::{Full, Strip};

// An empty line of four places is drained twice, and used again.
fn drained<L: Line>(rt: &impl Abort, line: &mut L) {
    assert_eq!(rt; drain(line), 0);
    joined(rt, line, &[5, 5, 2]);
    assert_eq!(rt; drain(line), 3);
    tells(rt, line, 4, 0);
    assert_eq!(rt; line.take(), None);
    joined(rt, line, &[8, 1, 3, 8]);
    assert_eq!(rt; drain(line), 4);
    tells(rt, line, 4, 0);
}

// In an empty line of four places: 6 waits, then three more do; of two more none.
fn entered<L: Line>(rt: &impl Abort, line: &mut L) {
    joined(rt, line, &[6]);
    assert_eq!(rt; join_all(line, &[]), Ok(()));
    tells(rt, line, 4, 1);
    assert_eq!(rt; join_all(line, &[1, 2, 1]), Ok(()));
    tells(rt, line, 4, 4);
    assert_eq!(rt; join_all(line, &[3]), Err(Full::NoPlace));
    assert_eq!(rt; join_all(line, &[]), Ok(()));
    tells(rt, line, 4, 4);
}

// With one place too few nobody joins.
fn kept_out<L: Line>(rt: &impl Abort, line: &mut L) {
    joined(rt, line, &[6]);
    assert_eq!(rt; join_all(line, &[1, 2, 3, 4]), Err(Full::NoPlace));
    tells(rt, line, 4, 1);
    taken(rt, line, &[6]);
    assert_eq!(rt; join_all(line, &[1, 2, 3, 4, 5]), Err(Full::NoPlace));
    tells(rt, line, 4, 0);
    assert_eq!(rt; line.take(), None);
}

#[test]
fn a_whole_queue(rt: HostRuntime) {
    let mut memory = [9; 4];
    let mut row = Strip::new(&mut memory);
    let mut line = Queue::new(&mut row);
    drained(&rt, &mut line);
    kept_out(&rt, &mut line);
    entered(&rt, &mut line);
    taken(&rt, &mut line, &[6, 1, 2, 1]);
    assert_eq!(rt; join_all(&mut line, &[4, 3, 2, 1]), Ok(()));
    taken(&rt, &mut line, &[4, 3, 2, 1]);
}

// The stack's own expected values.
#[test]
fn a_whole_stack(rt: HostRuntime) {
    let mut memory = [9; 4];
    let mut row = Strip::new(&mut memory);
    let mut line = Stack::new(&mut row);
    drained(&rt, &mut line);
    kept_out(&rt, &mut line);
    entered(&rt, &mut line);
    taken(&rt, &mut line, &[1, 2, 1, 6]);
    assert_eq!(rt; join_all(&mut line, &[4, 3, 2, 1]), Ok(()));
    taken(&rt, &mut line, &[1, 2, 3, 4]);
}
