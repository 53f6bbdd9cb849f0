// A layer of bars, on any board.
#![tactic(auto)]

pub mod bar;
pub mod bars;
mod span;
