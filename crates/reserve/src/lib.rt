// A layer of reserved places, on any board.
#![tactic(auto)]

pub mod reserve;
pub mod reserves;
