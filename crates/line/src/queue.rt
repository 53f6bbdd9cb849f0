// A line that takes the oldest.
#![tactic(auto, using(crate::proofs::Ends::takes_oldest))]

ghost use Rattle.line.specs.Calls.{the_oldest};

use crate::waiting::{End, Waiting};
use strip::row::Strip;

// The end at which a queue takes.
#[derive(Clone, Copy, Debug)]
pub struct Oldest;

// What a queue and a stack differ in.
impl End for Oldest {
    ghost takes = { the_oldest };

    fn take<'a>(row: &mut Strip<'a, u16>) -> Option<u16> {
        row.take_oldest()
    }
}

// First come, first served.
pub type Queue<'a, 'b> = Waiting<'a, 'b, Oldest>;
