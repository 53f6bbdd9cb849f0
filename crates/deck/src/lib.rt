// A deck that passed intake, for reading.
#![tactic(auto)]

mod agree;
pub mod bind;
pub mod deck;
mod same;
