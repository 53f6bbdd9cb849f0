// Both layers of a deck, on any board.
#![tactic(auto)]

pub mod pile;
