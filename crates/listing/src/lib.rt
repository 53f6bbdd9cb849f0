// What the program prints of a deck, as bytes.
#![tactic(auto)]

mod printer;
pub mod report;
