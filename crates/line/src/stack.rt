// A line that takes the newest.
#![tactic(auto, using(crate::proofs::Ends::takes_newest))]

ghost use Rattle.line.specs.Calls.{the_newest};

use crate::waiting::{End, Waiting};
use strip::row::Strip;

// The end at which a stack takes.
#[derive(Clone, Copy, Debug)]
pub struct Newest;

// What a queue and a stack differ in.
impl End for Newest {
    ghost takes = { the_newest };

    fn take<'a>(row: &mut Strip<'a, u16>) -> Option<u16> {
        row.take_newest()
    }
}

// Last come, first served.
pub type Stack<'a, 'b> = Waiting<'a, 'b, Newest>;
