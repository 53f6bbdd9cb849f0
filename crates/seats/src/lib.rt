// The seats board: in list order each seat takes the best contract at its dredger that is left, by its rule.
#![tactic(auto)]

pub mod choice;
mod lineup;
mod lineups;
pub mod seats;
