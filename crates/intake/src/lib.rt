// Intake: a deck's bytes into six lent tables, whole or not at all.
#![tactic(auto)]

pub mod book;
pub mod counts;
mod entry;
pub mod fault;
mod fill;
pub mod intake;
pub mod tables;
